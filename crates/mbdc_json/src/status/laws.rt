//! What the rows SILENT, ROOM and DAYS mean. The function has no effect; its contract states the laws.

ghost use Rattle.mbdc_json.specs.Laws.{DaysLast, RoomIsEnough, SilenceLasts, SilentWasNotHeard};

/// What `status` says of silence and room, in words of what will happen.
pub fn rows_mean_what_they_say()
    // A meter is silent that wasn't heard within the time, and it stays so while nothing of it comes.
    ensures silent { SilentWasNotHeard }
    ensures lasts { SilenceLasts }

    // As many more readings as ROOM says do fit, of the size of those that are held.
    ensures room { RoomIsEnough }

    // For as many days as DAYS says the budget isn't spent, at the pace at which what is held came.
    ensures days { DaysLast }
{}
