//! Tables of codes.

ghost use Rattle.std.specs.Prelude.{◌≡◌, map};
ghost use Rattle.dc_records.specs.Codes.{name_in};

/// The name of a code in a table: rows in rising order, each of the codes up to its last one that no earlier row has.
/// The codes after the last row are reserved.
pub(crate) fn name_in(mut rows: &[(u8, &'static str)], code: u8) -> &'static str
    ensures { result.now ≡ name_in (map (λ r. (r.0, r.1.now)) rows.entry.now) code }
{
    while let [row, rest @ ..] = rows {
        if code <= row.0 {
            return row.1;
        }
        rows = rest;
    }
    "reserved"
}
