//! Laws of the definitions, each the contract of a function that does nothing of its own.

ghost use Rattle.std.specs.Prelude.{◌≡◌, ◌≤◌, ◌<◌, ◌+◌, ◌⊎◌, ℕ, List, [], Option, Some, Err, length, drop};
ghost use Rattle.wl_io.specs.Reading.{IsTooLong, read_limit};
ghost use Rattle.wl_io.specs.Seen.{Seen};
ghost use Rattle.wl_frame.specs.Sealing.{Sealing};
ghost use Rattle.wl_history.specs.declared.step.Journal.{Journal};
ghost use Rattle.wl_scene.specs.Scene.{SceneOf};
ghost use Rattle.wl_top.specs.declared.ending.Ending.{Ending};
ghost use Rattle.wl_top.specs.declared.ending.Outcome.{Outcome};
ghost use Rattle.wl_top.specs.Run.{CheckEnds, DecodeEnds, IsInput, IsOutcome, Ran, RunEnds, SameRun, TellsFaults};
ghost use Rattle.wl_top.specs.Settled.{ChecksTo, DecodesTo, IsSettled, RunsTo, told_source};

/// Where a source tells its bytes, they are read to their end or too long, and not both: read exactly where
/// there are at most 16,777,216 of them.
pub fn read_or_too_long()
    ensures either { (told : List ℕ) (count : ℕ) → ((length told ≤ read_limit) × IsInput (told_source told [] count) told) ⊎ ((read_limit < length told) × IsTooLong (Some told) (Some (drop (read_limit + 1) told))) }
    ensures both { (source : Seen) (told text : List ℕ) → source.bytes ≡ Some told → IsInput source text → IsTooLong source.bytes source.bytes' → ⊥ }
{}

/// Statuses 3 and 4 come exactly where a count of faults rose: that of the source at 3, that of the sink at 4.
/// Every other status leaves both counts as they were.
pub fn faults_told()
    ensures { (words : List (List ℕ)) (source sink : Seen) (text : Sealing) (outcome : Outcome) → IsOutcome words source sink text outcome → TellsFaults source sink outcome.status }
{}

/// Where a source tells its bytes, a run over it ends as these bytes come to, unless a fault or want of
/// memory breaks it off.
pub fn settled()
    ensures decode { (source sink : Seen) (told : List ℕ) (e : Ending) → source.bytes ≡ Some told → DecodeEnds source sink e → IsSettled e → DecodesTo told e }
    ensures check { (source sink : Seen) (told : List ℕ) (e : Ending) → source.bytes ≡ Some told → CheckEnds source sink e → IsSettled e → ChecksTo told e }
    ensures run { (source sink : Seen) (text : Sealing) (told : List ℕ) (journal : Option Journal) (e : Ending) → source.bytes ≡ Some told → RunEnds source sink text journal e → IsSettled e → RunsTo text told e }
{}

/// An input comes to one ending of each command.
pub fn one_ending()
    ensures decode { (input : List ℕ) (e e' : Ending) → DecodesTo input e → DecodesTo input e' → e ≡ e' }
    ensures check { (input : List ℕ) (e e' : Ending) → ChecksTo input e → ChecksTo input e' → e ≡ e' }
    ensures run { (text : Sealing) (input : List ℕ) (e e' : Ending) → RunsTo text input e → RunsTo text input e' → e ≡ e' }
{
    wl_shown::refused_once();
    wl_shown::shown_is_not_bad();
    wl_shown::judged_once();
    wl_shown::judged_is_not_bad();
    wl_scene::read_once();
    wl_scene::reported_once();
    wl_history::played_once()
}

/// Each input comes to some ending of `decode`, and to some ending of `check`.
pub fn some_ending()
    ensures decode { (input : List ℕ) → (e : Ending) × DecodesTo input e }
    ensures check { (input : List ℕ) → (e : Ending) × ChecksTo input e }
{
    wl_shown::text_is_shown_or_bad();
    wl_shown::text_is_judged_or_bad();
}

/// Where a source tells its bytes, a scenario's run has one ending, one journal and one text: so what
/// `run` writes is the text of the one history that the scenario makes. No input is both a scenario and
/// refused.
pub fn one_run()
    ensures same { (source : Seen) (text : Sealing) (told : List ℕ) (e e' : Ending) (j j' : Option Journal) (out out' : List ℕ) → source.bytes ≡ Some told → Ran source text e j out → Ran source text e' j' out' → SameRun e e' j j' out out' }
    ensures refused { (source : Seen) (text : Sealing) (told input : List ℕ) (place : ℕ) (e : Ending) (j : Option Journal) (out : List ℕ) → source.bytes ≡ Some told → Ran source text e j out → IsInput source input → SceneOf input (Err place) → ⊥ }
{
    wl_scene::read_once();
    wl_scene::reported_once();
    wl_history::played_once()
}
