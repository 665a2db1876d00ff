ghost use Rattle.std.specs.Prelude.{◌≡◌, ◌≢◌, ◌<◌, ◌≤◌, ◌⊎◌, List, ℕ, IfSome};
ghost use Rattle.ato_base.specs.declared.faults.Fault.{Fault};
ghost use Rattle.ato_base.specs.declared.faults.FaultKind.TheVariants as kinds;
ghost use Rattle.ato_cert.specs.Texts.{cert_text};
ghost use Rattle.ato_cert.specs.declared.cert.Cert.{Cert};
ghost use Rattle.ato_outside.specs.Causes.{Rose};
ghost use Rattle.ato_words.specs.Words.{texts, IsBuild, IsCheck, IsJob, IsNoJob};
ghost use Rattle.ato_words.specs.declared.words.Build.{Build};
ghost use Rattle.ato_words.specs.declared.words.Check.{Check};
ghost use Rattle.ato_words.specs.declared.words.Task.{Task};
ghost use Rattle.ato_words.specs.declared.words.Task.TheVariants as tasks;
ghost use Rattle.ato_build.specs.Boards.{Board, IsGood, NoGood, IsValidOn};
ghost use Rattle.ato_build.specs.BuiltCertificates.{IsBuiltCertificate};
ghost use Rattle.ato_build.specs.Causes.{EndsOutside, IsDone, IsRejected};
ghost use Rattle.ato_build.specs.Headline.{Headline, IsToldWriteFault};
ghost use Rattle.ato_build.specs.Input.{input_of};
ghost use Rattle.ato_build.specs.InputStages.{Stands, GivesBoard, GivesCertificate};
ghost use Rattle.ato_build.specs.Judgements.{IsNoValidCertificate};

use crate::Status;
use crate::answer::Answer;
use crate::printing::say;
use crate::settling::settle;
use ato_outside::{Shelf, Sink, Tray};
use std::alloc::Global;

/// Does what the words of the command line say: reads from the shelf, puts into the tray, prints to
/// the sink, and tells how it ended.
pub fn run<S: Shelf, T: Tray, O: Sink>(
    alloc: Global,
    words: &Vec<String>,
    shelf: &mut S,
    tray: &mut T,
    out: &mut O,
) -> Status
    // What the status means for the words, the files, the tray and the sink.
    ensures headline { Headline (texts words.now.items) (S.files shelf.old) (T.files tray.old) (T.files tray.new)
        (O.written out.old) (O.written out.new) result }

    // A fault of reading or writing comes only where something outside failed in this call.
    ensures read { result ≡ Status.ReadFault → Rose (S.faults shelf.old) (S.faults shelf.new) }
    ensures write { result ≡ Status.WriteFault → Rose (T.faults tray.old) (T.faults tray.new) ⊎ Rose (O.faults out.old) (O.faults out.new) }

    ensures write_told { result ≡ Status.WriteFault
        → IsToldWriteFault (Rose (S.faults shelf.old) (S.faults shelf.new)) (Rose (T.faults tray.old) (T.faults tray.new))
        (Rose (O.faults out.old) (O.faults out.new))
        (texts words.now.items) (S.files shelf.old) (T.files tray.old) (T.files tray.new) (O.written out.old) (O.written out.new) }

    // A file is missing only where the shelf missed one in this call.
    ensures missing { (f : Fault) → result ≡ Status.Fault f → f.kind ≡ kinds.FileMissing → Rose (S.misses shelf.old) (S.misses shelf.new) }

    // The files of the shelf stay, and no count falls.
    ensures shelf_same { S.files shelf.new ≡ S.files shelf.old }
    ensures shelf_later { S.faults shelf.old ≤ S.faults shelf.new }
    ensures tray_later { T.faults tray.old ≤ T.faults tray.new }
    ensures sink_later { O.faults out.old ≤ O.faults out.new }

    // No failure outside is passed over.
    ensures tray_kept { T.faults tray.old < T.faults tray.new → result ≡ Status.WriteFault }
    ensures sink_kept { O.faults out.old < O.faults out.new → result ≡ Status.WriteFault }
    ensures shelf_kept { S.faults shelf.old < S.faults shelf.new → EndsOutside result }

    // Where memory and the outside do not fail, the words and the files decide the answer. This and all below follows from the
    // clauses above: words are one task at most, and an input has one board or one fault at most.
    ensures usage_where { IsNoJob (texts words.now.items) → (result ≡ Status.Usage) ⊎ (result ≡ Status.NoMemory) ⊎ (result ≡ Status.WriteFault) }
    ensures fault_where { IfSome (S.files shelf.old) (λ files. (task : Task) (f : Fault) → IsJob (texts words.now.items) task
        → Stands task (input_of files task) f → (result ≡ Status.Fault f) ⊎ EndsOutside result) }
    ensures built_where { IfSome (S.files shelf.old) (λ files. (build : Build) (board : Board) (pick : List ℕ) → IsBuild (texts words.now.items) build
        → GivesBoard (tasks.Build build) (input_of files (tasks.Build build)) board → IsGood board pick → (result ≡ Status.Built) ⊎ EndsOutside result) }
    ensures refuted_where { IfSome (S.files shelf.old) (λ files. (build : Build) (board : Board) → IsBuild (texts words.now.items) build
        → GivesBoard (tasks.Build build) (input_of files (tasks.Build build)) board → NoGood board → (result ≡ Status.Refuted) ⊎ EndsOutside result) }

    // The text of a valid certificate is accepted, whoever wrote it, and other bytes are rejected.
    ensures accepted_where { IfSome (S.files shelf.old) (λ files. (check : Check) (board : Board) (cert : Cert) → IsCheck (texts words.now.items) check
        → GivesCertificate check (input_of files (tasks.Check check)) board (cert_text cert) → IsValidOn board cert → (result ≡ Status.Accepted) ⊎ EndsOutside result) }
    ensures rejected_where { IfSome (S.files shelf.old) (λ files. (check : Check) (board : Board) (bytes : List ℕ) → IsCheck (texts words.now.items) check
        → GivesCertificate check (input_of files (tasks.Check check)) board bytes → IsNoValidCertificate board bytes → IsRejected result ⊎ EndsOutside result) }

    // What a build puts as its certificate a check of the same project accepts.
    ensures built_accepted { IfSome (S.files shelf.old) (λ files. (check : Check) → IsCheck (texts words.now.items) check
        → IsBuiltCertificate files check → (result ≡ Status.Accepted) ⊎ EndsOutside result) }

    // Where no fault stands and nothing outside failed in this call, a job is done.
    ensures complete { IfSome (S.files shelf.old) (λ files. (task : Task) → IsJob (texts words.now.items) task
        → ((f : Fault) → ¬ Stands task (input_of files task) f)
        → ¬ Rose (S.faults shelf.old) (S.faults shelf.new) → ¬ Rose (T.faults tray.old) (T.faults tray.new) → ¬ Rose (O.faults out.old) (O.faults out.new)
        → IsDone task result ⊎ (result ≡ Status.NoMemory)) }

    // What never fails is never named: these two follow from `read` and `write` alone.
    ensures sure_shelf { ((s : S) → S.faults s ≡ 0) → result ≢ Status.ReadFault }
    ensures sure_outputs { ((t : T) → T.faults t ≡ 0) → ((o : O) → O.faults o ≡ 0) → result ≢ Status.WriteFault }
{
    let Answer { status, said } = settle(alloc, words, shelf, tray);
    if say(out, &said) {
        status
    } else {
        Status::WriteFault
    }
}
