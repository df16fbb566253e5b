//! Theorems about what bodies say. The functions have no effect; their contracts state the theorems.

ghost use Rattle.std.specs.Prelude.{◌≡◌, ◌≢◌, ℕ, List, [], Ok, Some};
ghost use Rattle.dc_records.specs.Header.{header_at, security_mode};
ghost use Rattle.dc_records.specs.Telegram.{telegram_at};
ghost use Rattle.dc_records.specs.declared.header.Header.{Header};
ghost use Rattle.mbdc_reading.specs.Content.{IsAsRead, content_of, long_header, sents_of, variable};

/// What a body after CI 72 says: what the register reads, where it reads it; else the fault for which it refuses it, or
/// what it holds but for a unit in plain text with VIFEs. An encrypted body has no records.
#[tactic(auto, using(crate::proofs::Register::as_read, crate::proofs::Register::none_encrypted), unfolding(crate::specs::Content::content_of))]
pub fn as_the_register_reads()
    ensures content { (body : List ℕ) → content_of 0x72 body ≡ Some (variable (long_header body)) }
    ensures same { (body : List ℕ) → IsAsRead (telegram_at body) (long_header body) }
    ensures encrypted { (body : List ℕ) (h : Header) → header_at body ≡ Ok h
        → security_mode h ≢ 0 → sents_of (long_header body) ≡ [] }
{}
