//! Laws of lines, each the contract of a function that does nothing.

ghost use Rattle.std.specs.Prelude.{◌≡◌, ◌≢◌, ℕ, List, All, Ok};
ghost use Rattle.mc_protocol.specs.Words.{words};
ghost use Rattle.mc_parse.specs.Units.{with_block};
ghost use Rattle.mc_parse.specs.Lines.{Line, meaning, IsWord, IsKey, HasKeys};

/// States that no word of a text without a line feed has a space or a line feed. It does nothing.
#[tactic(auto, using(crate::proofs::LineWords::words_are_words))]
pub fn words_hold_no_space_or_feed()
    ensures { (text : List ℕ) → All (λ b. b ≢ 10) text → All IsWord (words text) }
{}

/// States that each key of a line's command has 1 to 250 bytes, none of them a space or line feed.
pub fn keys_of_a_line_are_keys()
    ensures { (greatest : ℕ) (text : List ℕ) (line : Line) (block : List ℕ) →
        All (λ b. b ≢ 10) text → meaning greatest (words text) ≡ Ok line →
        HasKeys IsKey (with_block line block) }
{}
