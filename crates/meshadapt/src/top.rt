// A run, from its words to its status.
ghost use Rattle.std.specs.Prelude.{◌≡◌, ◌≤◌, None, Some, map, string_bytes};
ghost use Rattle.carrier.specs.Carried.{Carried};
ghost use Rattle.one_mesh.specs.Adaptation.{most_passes};
ghost use Rattle.meshadapt.specs.Geometry.{GeometryIsKept};
ghost use Rattle.meshadapt.specs.Headline.{Headline};
ghost use Rattle.meshadapt.specs.Outcome.{AcceptedIsDone, Leaves, LeavesCarrier, RefusalIsAnswered, TooManyIsAnswered, UsageIsAnswered, seen};
ghost use Rattle.meshadapt.specs.Words.{job_of};
ghost use Rattle.meshadapt.specs.steps.Asking.{IsInRange, asked};
ghost use Rattle.meshadapt.specs.steps.Fetching.{inputs_of};
ghost use Rattle.meshadapt.specs.steps.Running.{Runs, RunsFrom};

use crate::fetching::{Fetched, fetch_inputs};
use crate::halt::Halt;
use crate::lines::usage_line;
use crate::parts::run_parts;
use crate::putting::{end_halted, end_with, put_line};
use crate::rounds::adapt_mesh;
use crate::status::Status;
use crate::storing::store_mesh;
use crate::words::{Job, job_of};
use carrier::Carrier;
use ma_io::{Depot, Sink};
use one_mesh::OneMesh;
use part_rules::Course;
use std::alloc::Global;

/// Does what a job without parts asks for, but for the last line of a run that is not done.
fn run_plain<D: Depot, S: Sink>(
    alloc: Global,
    job: &Job,
    fetched: &Fetched,
    depot: &mut D,
    out: &mut S,
) -> Result<(), Halt>
    requires alone { fetched.now.handout ≡ None }
    requires collapses { job.now.collapses ≤ most_passes }
    requires swaps { job.now.swaps ≤ most_passes }
    ensures { (carried : Carried) → RunsFrom result (asked job.now) (inputs_of fetched.now) carried carried (D.held depot.old) (D.held depot.new) (S.received out.old) (S.received out.new) }
{
    let mut mesh = OneMesh::from_mesh(alloc, &fetched.accepted.mesh)?;
    let nodes = adapt_mesh(alloc, job, fetched, &mut mesh, out)?;
    let names = fetched.accepted.names.as_slice();
    store_mesh(alloc, depot, mesh.batch(), &nodes, names, job.out)?;
    put_line(out, b"done: plain\n")
}

/// Does what a job asks for, but for the last line of a run that is not done.
fn run_job<D: Depot, C: Carrier, S: Sink>(
    alloc: Global,
    job: &Job,
    depot: &mut D,
    carrier: &mut C,
    out: &mut S,
) -> Result<(), Halt>
    requires { IsInRange job.now }
    ensures runs { Runs result (asked job.now) (seen (D.held depot.old) (C.carried carrier.old) (S.received out.old)) (seen (D.held depot.new) (C.carried carrier.new) (S.received out.new)) }
    ensures carrier { LeavesCarrier (Some (asked job.now)) (seen (D.held depot.old) (C.carried carrier.old) (S.received out.old)) (seen (D.held depot.new) (C.carried carrier.new) (S.received out.new)) }
{
    let mut fetched = fetch_inputs(alloc, depot, job)?;
    match fetched.handout.take() {
        None => run_plain(alloc, job, &fetched, depot, out),
        Some(mut handout) => {
            let Fetched {
                accepted,
                field,
                ..
            } = fetched;
            let course = Course {
                parts: handout.parts,
                grid: accepted.grid,
                collapse: job.collapses,
                swap: job.swaps,
                field,
            };
            run_parts(
                alloc,
                job,
                &accepted,
                course,
                &mut handout,
                depot,
                carrier,
                out,
            )
        }
    }
}

fn run<D: Depot, C: Carrier, S: Sink>(
    alloc: Global,
    words: &[String],
    depot: &mut D,
    carrier: &mut C,
    out: &mut S,
) -> Status
    ensures leaves { Leaves result (job_of (map string_bytes words.now)) (seen (D.held depot.old) (C.carried carrier.old) (S.received out.old)) (seen (D.held depot.new) (C.carried carrier.new) (S.received out.new)) }
    ensures carrier { LeavesCarrier (job_of (map string_bytes words.now)) (seen (D.held depot.old) (C.carried carrier.old) (S.received out.old)) (seen (D.held depot.new) (C.carried carrier.new) (S.received out.new)) }
{
    match job_of(words) {
        Some(job) => match run_job(alloc, &job, depot, carrier, out) {
            Ok(()) => Status::Done,
            Err(halt) => end_halted(alloc, out, &job, halt),
        },
        None => end_with(out, Status::Usage, usage_line(alloc)),
    }
}

/// Adapts the mesh that the words name, round by round, and stores the result in the depot.
///
/// In each round the tetrahedra are bisected at their long edges, then short edges are collapsed in
/// so many passes, and then poor cavities are swapped in so many. The lines of the run are put into
/// `out`, one for each round. A line that can't be put ends the run with a write fault, unless the
/// run ends with that line for another reason.
///
/// Where the words tell of parts, the mesh is handed out to them by the partition file. They speak
/// by letters that go over the carrier, of which those are taken next that the schedule file picks.
/// In each round a part refines its own of the mesh by itself, and then learns from the others what
/// lies beside it. In each pass the parts agree by letters on what is made, and learn it anew. What
/// each part sees at the end is stored too.
pub fn meshadapt<D: Depot, C: Carrier, S: Sink>(
    alloc: Global,
    words: &[String],
    depot: &mut D,
    carrier: &mut C,
    out: &mut S,
) -> Status
    // What each status means, and what is left of the files and was put.
    ensures leaves { Leaves result (job_of (map string_bytes words.now)) (seen (D.held depot.old) (C.carried carrier.old) (S.received out.old)) (seen (D.held depot.new) (C.carried carrier.new) (S.received out.new)) }

    // Nothing is posted or taken but over parts.
    ensures carrier { LeavesCarrier (job_of (map string_bytes words.now)) (seen (D.held depot.old) (C.carried carrier.old) (S.received out.old)) (seen (D.held depot.new) (C.carried carrier.new) (S.received out.new)) }

    // When each status comes.
    ensures usage { UsageIsAnswered result (job_of (map string_bytes words.now)) }
    ensures refusal { RefusalIsAnswered result (job_of (map string_bytes words.now)) (seen (D.held depot.old) (C.carried carrier.old) (S.received out.old)) (seen (D.held depot.new) (C.carried carrier.new) (S.received out.new)) }
    ensures completes { AcceptedIsDone result (job_of (map string_bytes words.now)) (seen (D.held depot.old) (C.carried carrier.old) (S.received out.old)) (seen (D.held depot.new) (C.carried carrier.new) (S.received out.new)) }
    ensures too_many { TooManyIsAnswered result (job_of (map string_bytes words.now)) (seen (D.held depot.old) (C.carried carrier.old) (S.received out.old)) (seen (D.held depot.new) (C.carried carrier.new) (S.received out.new)) }

    // What the stored mesh keeps of the geometry of the accepted one.
    ensures geometry { GeometryIsKept result (job_of (map string_bytes words.now)) (seen (D.held depot.old) (C.carried carrier.old) (S.received out.old)) (seen (D.held depot.new) (C.carried carrier.new) (S.received out.new)) }

    // Over parts a run that is done leaves what one part would have left, whatever the partition and
    // the order of letters.
    ensures headline { Headline result (job_of (map string_bytes words.now)) (seen (D.held depot.old) (C.carried carrier.old) (S.received out.old)) (seen (D.held depot.new) (C.carried carrier.new) (S.received out.new)) }
{
    run(alloc, words, depot, carrier, out)
}
