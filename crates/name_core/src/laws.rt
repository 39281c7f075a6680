//! Laws of the office and of the choice. Each function has an empty body; its clauses say what holds
//! of every office, of all lists of calls on it, and of all that a block recovery may learn.

ghost use Rattle.std.specs.Prelude.{ℕ, ◌≡◌, ◌<◌, ◌≤◌, List, All, AllPairs, IfOk, Ok};
ghost use Rattle.hd_base.specs.declared.numbers.BlockId.{BlockId};
ghost use Rattle.hd_base.specs.declared.numbers.Stamp.{Stamp};
ghost use Rattle.name_core.specs.declared.calls.Begun.{Begun};
ghost use Rattle.name_core.specs.declared.calls.OfficeCall.{OfficeCall};
ghost use Rattle.name_core.specs.declared.calls.OfficeCall.TheVariants as call;
ghost use Rattle.name_core.specs.declared.calls.OfficeAnswer.TheVariants as answer;
ghost use Rattle.name_core.specs.declared.infos.Info.{Info};
ghost use Rattle.name_core.specs.Choice.{choice};
ghost use Rattle.name_core.specs.Laws.{stamps_given, RefusesWriter, KeepsLength};
ghost use Rattle.name_core.specs.Offices.{OfficeState, office_after, answer_to, run};

/// A stamp is given once, and stamps rise: each is below all later ones, none is below the office's
/// next one before the calls, and all are below its next one after them.
pub fn stamps_rise()
    ensures rise { (o : OfficeState) (calls : List OfficeCall) → AllPairs (λ a b. a < b) (stamps_given o calls) }
    ensures fresh { (o : OfficeState) (calls : List OfficeCall) → All (λ s. o.next.0 ≤ s) (stamps_given o calls) }
    ensures past { (o : OfficeState) (calls : List OfficeCall) →
        All (λ s. s < (run o calls).next.0) (stamps_given o calls) }
{}

/// After a block recovery began, no commit and no end of the writer passes under a stamp that was
/// given before, whatever calls come in between.
pub fn lease_stays_lost()
    ensures { (o : OfficeState) (block : BlockId) (begun : Begun) (calls : List OfficeCall) (stamp : Stamp) →
        answer_to o (call.BeginRecovery block) ≡ Ok (answer.Begun begun) → stamp.0 < begun.id.0 →
        RefusesWriter (run (office_after o (call.BeginRecovery block)) calls) block stamp }
{}

/// The chosen length is that of each finalized candidate, and no more than that of each one that is
/// chosen.
pub fn chosen_length_is_held()
    ensures { (block_stamp : Stamp) (infos : List Info) →
        IfOk (choice block_stamp infos) (KeepsLength block_stamp infos) }
{}
