//! Laws of the definitions.

ghost use Rattle.std.specs.Prelude.{◌≡◌, [], codes, false, true};
ghost use Rattle.mbdc_sheet.specs.Worked.{is_worked};

/// A page may show its file's numbers; what a cheat would write in their place is refused.
pub fn a_page_shows_its_files_numbers()
    ensures right { is_worked [] (codes "2") (codes "1,009.31") ≡ true }
    ensures dated { is_worked (codes "<p data-fixed=\"date\">31 Oct 2026, 24:00</p>") (codes "2") (codes "1,009.31 m³")
        ≡ true }
    ensures changed { is_worked [] (codes "2") (codes "1,009.32") ≡ false }
    ensures marked { is_worked [] (codes "2") (codes "1.009,31") ≡ false }
    ensures longer { is_worked [] (codes "2") (codes "1,009.31 5") ≡ false }
    ensures anothers { is_worked [] (codes "3") (codes "5.00") ≡ false }
    ensures none { is_worked [] (codes "4") [] ≡ false }
    ensures digit { is_worked (codes "<p>9</p>") (codes "2") (codes "1,009.31") ≡ false }
    ensures entity { is_worked (codes "<p>&#57;</p>") (codes "2") (codes "1,009.31") ≡ false }
    ensures date { is_worked (codes "<p data-fixed=\"date\">9.50</p>") (codes "2") (codes "1,009.31") ≡ false }
    ensures script { is_worked (codes "<script></script>") (codes "2") (codes "1,009.31") ≡ false }
    ensures comment { is_worked (codes "<!-- ") (codes "2") (codes "1,009.31") ≡ false }
{}
