//! Laws of the definitions, each the contract of a function that does nothing of its own.

ghost use Rattle.std.specs.Prelude.{◌≡◌, ◌⊎◌, ◌<◌, ℕ, List, Option};
ghost use Rattle.std.specs.List.{AllByRecursion};
ghost use Rattle.wl_shown.specs.declared.line.Kind.{Kind};
ghost use Rattle.wl_shown.specs.Shown.{Answer, AnswerAs};
ghost use Rattle.wl_shown.specs.Decoded.{ShownLines, IsFirstBad};
ghost use Rattle.wl_shown.specs.Checked.{VerdictLines};

/// The octets of a line, as what its kind says they are, have one answer: an item, or one refusal.
pub fn answers_once()
    ensures { (kind : Kind) (octets : List ℕ) (a b : Answer) → AnswerAs kind octets a → AnswerAs kind octets b → a ≡ b }
{
    wl_elem::read_once();
    wl_frame::read_once();
    wl_action::read_once();
    wl_action::known_read_once();
    wl_assoc::ask_read_once();
    wl_assoc::reply_read_once();
    wl_assoc::asks_once();
    wl_assoc::states_once();
}

/// Octets have an answer, whatever kind of line they stand in.
pub fn answers_made()
    ensures { (kind : Kind) (octets : List ℕ) → AllByRecursion (λ octet. octet < 256) octets → (answer : Answer) × AnswerAs kind octets answer }
{
    wl_elem::read_or_refused();
    wl_frame::read_or_refused();
    wl_action::read_or_refused();
    wl_action::known_read_or_refused();
    wl_assoc::ask_read_or_refused();
    wl_assoc::reply_read_or_refused();
    wl_assoc::asks_or_refused();
    wl_assoc::states_or_refused();
}

/// One text is shown for the lines of an input.
pub fn shown_once()
    ensures { (input : List (List ℕ)) (text other : List ℕ) → ShownLines input text → ShownLines input other → text ≡ other }
{
    answers_once()
}

/// The lines of an input have one text of verdicts, and one first refused line or none.
pub fn judged_once()
    ensures { (input : List (List ℕ)) (text other : List ℕ) (line next : Option ℕ) → VerdictLines input text line → VerdictLines input other next → (text ≡ other) × (line ≡ next) }
{
    answers_once()
}

/// What has verdicts has no line that is no hex line.
pub fn judged_is_not_bad()
    ensures { (input : List (List ℕ)) (text : List ℕ) (refused : Option ℕ) (line : ℕ) → VerdictLines input text refused → IsFirstBad input line → ⊥ }
{}

/// One line is the first that is no hex line.
pub fn refused_once()
    ensures { (input : List (List ℕ)) (line other : ℕ) → IsFirstBad input line → IsFirstBad input other → line ≡ other }
{}

/// What is shown has no line that is no hex line.
pub fn shown_is_not_bad()
    ensures { (input : List (List ℕ)) (text : List ℕ) (line : ℕ) → ShownLines input text → IsFirstBad input line → ⊥ }
{}

/// Each input has a text that is shown for it, or a first line that is no hex line.
pub fn text_is_shown_or_bad()
    ensures { (input : List (List ℕ)) → ((text : List ℕ) × ShownLines input text) ⊎ ((line : ℕ) × IsFirstBad input line) }
{
    answers_made()
}

/// Each input has verdicts on all its lines, or a first line that is no hex line.
pub fn text_is_judged_or_bad()
    ensures { (input : List (List ℕ)) → ((text : List ℕ) × (refused : Option ℕ) × VerdictLines input text refused) ⊎ ((line : ℕ) × IsFirstBad input line) }
{
    answers_made()
}
