//! What a script did, beside its text.

ghost use Rattle.mbdc_change.specs.Command.{IsCommand};
ghost use Rattle.mbdc_change.specs.Fields.{IsNumber};

use mbdc_change::Numbered;

/// Takes the commands of the billing office that were done. What becomes of them changes nothing of the script.
pub trait CommandNotes {
    /// Takes the next command; it is on the disk.
    fn note(&mut self, done: &Numbered)
        requires number { IsNumber done.now.number }
        requires command { IsCommand done.now.command };
}

// Takes none.
impl CommandNotes for () {
    fn note(&mut self, _done: &Numbered) {}
}
