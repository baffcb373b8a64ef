//! Laws of tokens, and no code: a contract is the statement of each.

ghost use Rattle.std.specs.Prelude.{ℕ, List, ◌≡◌, Ok};
ghost use Rattle.ctd_token.specs.Cut.{Cuts, Faults, token_at};
ghost use Rattle.ctd_token.specs.calls.Form.{IsLongestPrefix, form_of};
ghost use Rattle.ctd_token.specs.calls.Lexing.{IsDecided};
ghost use Rattle.ctd_token.specs.declared.token.Token.{Token};
ghost use Rattle.ctd_token.specs.declared.token.TokenKind.{TokenKind};
ghost use Rattle.ctd_token.specs.declared.fault.LoadKind.{LoadKind};

/// Each text is cut or has a first fault, and never both; it is cut in one way, and has one first fault.
pub fn tokens_are_unique()
    ensures decided { (text : List ℕ) → IsDecided text }
    ensures same { (text : List ℕ) (a b : List Token) →
        Cuts text 0 text a → Cuts text 0 text b → a ≡ b }
    ensures no_fault { (text : List ℕ) (offset : ℕ) (kind : LoadKind) (a : List Token) →
        Faults 0 text kind offset → Cuts text 0 text a → ⊥ }
    ensures first_fault { (text : List ℕ) (p q : ℕ) (kind other : LoadKind) →
        Faults 0 text kind p → Faults 0 text other q → (kind ≡ other) × (p ≡ q) }
{}

/// A token has its form, and is the longest prefix of what is left of the text that has it.
pub fn tokens_are_longest()
    ensures { (bytes : List ℕ) (kind : TokenKind) (n : ℕ) →
        token_at bytes ≡ Ok (kind, n) → IsLongestPrefix (form_of kind) n bytes }
{}
