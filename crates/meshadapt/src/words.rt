// The command line.
ghost use Rattle.std.specs.Prelude.{◌≡◌, ◌≤◌, ◌^◌, IfSome, map, string_bytes};
ghost use Rattle.std.specs.Option.{option_map};
ghost use Rattle.one_mesh.specs.Adaptation.{most_passes};
ghost use Rattle.meshadapt.specs.Words.{after_flag, divided_job_of, division_of, in_range, job_of, job_with, number_in, number_of, plain_job_of, size_file_of, sizes_of, uniform_of, value_of};
ghost use Rattle.meshadapt.specs.steps.Asking.{HasParts, HasSize, IsInRange, asked, division_asked, sizes_asked};

use ma_text::magnitude;

/// How many parts a mesh may be handed out to.
const MOST_PARTS: u32 = 64;

/// How many rounds may be run.
const MOST_ROUNDS: u32 = 30;

/// How many passes of a kind a round may have.
const MOST_PASSES: u32 = 16;

/// The sizes that edges are to have.
#[derive(Clone, Copy, Debug)]
pub enum Sizes<'a> {
    /// One size everywhere, from 1 to 2^30.
    Uniform(u32),
    /// Those in the file of this name.
    InFile(&'a str),
}

/// How a mesh is handed out to parts.
#[derive(Clone, Copy, Debug)]
pub struct Division<'a> {
    /// How many parts there are, from 1 to 64.
    pub parts: u8,
    /// The file that tells the part of each tetrahedron.
    pub partition: &'a str,
    /// The file of the picks by which letters are taken.
    pub schedule: &'a str,
}

/// What the words ask for.
#[derive(Clone, Copy, Debug)]
pub struct Job<'a> {
    /// The file of the mesh.
    pub mesh: &'a str,
    /// The sizes of edges.
    pub sizes: Sizes<'a>,
    /// The division into parts, if there is one.
    pub division: Option<Division<'a>>,
    /// How many rounds are run, at most 30.
    pub rounds: u32,
    /// How many collapse passes a round has, at most 16.
    pub collapses: u32,
    /// How many swap passes it has, likewise.
    pub swaps: u32,
    /// The front of the names of what is stored.
    pub out: &'a str,
}

/// The number, if it is from `low` to `high`.
fn in_range(low: u32, high: u32, value: u64) -> Option<u32>
    ensures value { result ≡ in_range low high value }
    ensures range { IfSome result (λ n. (low ≤ n) × (n ≤ high)) }
{
    if u64::from(low) <= value && value <= u64::from(high) {
        Some(value as u32)
    } else {
        None
    }
}

/// A number from `low` to `high`, in decimal digits alone.
fn number_in(low: u32, high: u32, word: &str) -> Option<u32>
    requires { high ≤ 2 ^ 30 }
    ensures value { result ≡ number_in low high word.now }
    ensures range { IfSome result (λ n. (low ≤ n) × (n ≤ high)) }
{
    match magnitude(word.as_bytes()) {
        Ok(value) => in_range(low, high, value),
        Err(_) => None,
    }
}

/// The words behind the flag, if it comes first.
fn after_flag<'a>(name: &str, words: &'a [String]) -> Option<&'a [String]>
    ensures { option_map (λ rest. map string_bytes rest.now) result ≡ after_flag name.now (map string_bytes words.now) }
{
    match words {
        [first, rest @ ..] if first.as_str() == name => Some(rest),
        _ => None,
    }
}

/// The value of an option, and the words behind it, if the option comes first.
#[tactic(auto, unfolding(crate::specs::Words::value_of))]
fn value_of<'a>(name: &str, words: &'a [String]) -> Option<(&'a str, &'a [String])>
    ensures { option_map (λ x. (x.0.now, map string_bytes x.1.now)) result ≡ value_of name.now (map string_bytes words.now) }
{
    match after_flag(name, words)? {
        [first, rest @ ..] => Some((first.as_str(), rest)),
        [] => None,
    }
}

/// The value of an option as a number from `low` to `high`, likewise.
#[tactic(auto, unfolding(crate::specs::Words::number_of))]
fn number_of<'a>(
    name: &str,
    low: u32,
    high: u32,
    words: &'a [String],
) -> Option<(u32, &'a [String])>
    requires { high ≤ 2 ^ 30 }
    ensures value { option_map (λ x. (x.0, map string_bytes x.1.now)) result ≡ number_of name.now low high (map string_bytes words.now) }
    ensures range { IfSome result (λ x. (low ≤ x.0) × (x.0 ≤ high)) }
{
    let (value, rest) = value_of(name, words)?;
    let n = number_in(low, high, value)?;
    Some((n, rest))
}

#[tactic(auto, unfolding(crate::specs::Words::uniform_of))]
fn uniform_of<'a>(words: &'a [String]) -> Option<(Sizes<'a>, &'a [String])>
    ensures value { option_map (λ x. (sizes_asked x.0, map string_bytes x.1.now)) result ≡ uniform_of (map string_bytes words.now) }
    ensures range { IfSome result (λ x. HasSize x.0) }
{
    let (size, rest) = number_of("--uniform", 1, 1 << 30, words)?;
    Some((Sizes::Uniform(size), rest))
}

#[tactic(auto, unfolding(crate::specs::Words::size_file_of))]
fn size_file_of<'a>(words: &'a [String]) -> Option<(Sizes<'a>, &'a [String])>
    ensures value { option_map (λ x. (sizes_asked x.0, map string_bytes x.1.now)) result ≡ size_file_of (map string_bytes words.now) }
    ensures range { IfSome result (λ x. HasSize x.0) }
{
    let (name, rest) = value_of("--size", words)?;
    Some((Sizes::InFile(name), rest))
}

/// The sizes, and the words behind them, if they come first.
#[tactic(auto, unfolding(crate::specs::Words::sizes_of))]
fn sizes_of<'a>(words: &'a [String]) -> Option<(Sizes<'a>, &'a [String])>
    ensures value { option_map (λ x. (sizes_asked x.0, map string_bytes x.1.now)) result ≡ sizes_of (map string_bytes words.now) }
    ensures range { IfSome result (λ x. HasSize x.0) }
{
    match uniform_of(words) {
        Some(found) => Some(found),
        None => size_file_of(words),
    }
}

/// The division into parts, and the words behind it, if it comes first.
#[tactic(auto, unfolding(crate::specs::Words::division_of))]
fn division_of<'a>(words: &'a [String]) -> Option<(Division<'a>, &'a [String])>
    ensures value { option_map (λ x. (division_asked x.0, map string_bytes x.1.now)) result ≡ division_of (map string_bytes words.now) }
    ensures range { IfSome result (λ x. HasParts x.0) }
{
    let (parts, rest) = number_of("--parts", 1, MOST_PARTS, words)?;
    let (partition, rest) = value_of("--partition", rest)?;
    let (schedule, rest) = value_of("--schedule", rest)?;
    let parts = parts as u8;
    let division = Division {
        parts,
        partition,
        schedule,
    };
    Some((division, rest))
}

/// The job with what stands behind the mesh, the sizes and the division.
#[tactic(auto, unfolding(crate::specs::Words::job_with))]
fn job_with<'a>(
    mesh: &'a str,
    sizes: Sizes<'a>,
    division: Option<Division<'a>>,
    words: &'a [String],
) -> Option<Job<'a>>
    ensures value { option_map (λ job. asked job) result ≡ job_with mesh.now (sizes_asked sizes.entry) (option_map division_asked division.entry) (map string_bytes words.now) }
    ensures sizes { IfSome result (λ job. job.sizes ≡ sizes.entry) }
    ensures division { IfSome result (λ job. job.division ≡ division.entry) }
    ensures passes { IfSome result (λ job. (job.collapses ≤ most_passes) × (job.swaps ≤ most_passes)) }
{
    let (rounds, options) = number_of("--rounds", 0, MOST_ROUNDS, words)?;
    let (collapses, options) = number_of("--collapse", 0, MOST_PASSES, options)?;
    let (swaps, options) = number_of("--swap", 0, MOST_PASSES, options)?;
    let (out, options) = value_of("--out", options)?;
    if options.is_empty() {
        Some(Job {
            mesh,
            sizes,
            division,
            rounds,
            collapses,
            swaps,
            out,
        })
    } else {
        None
    }
}

/// The job of a mesh that isn't handed out.
#[tactic(auto, unfolding(crate::specs::Words::plain_job_of))]
fn plain_job_of<'a>(words: &'a [String]) -> Option<Job<'a>>
    ensures value { option_map (λ job. asked job) result ≡ plain_job_of (map string_bytes words.now) }
    ensures right { IfSome result (λ job. IsInRange job) }
{
    let options = after_flag("--plain", words)?;
    let (mesh, options) = value_of("--mesh", options)?;
    let (sizes, options) = sizes_of(options)?;
    job_with(mesh, sizes, None, options)
}

/// The job of a mesh that is handed out to parts.
#[tactic(auto, unfolding(crate::specs::Words::divided_job_of))]
fn divided_job_of<'a>(words: &'a [String]) -> Option<Job<'a>>
    ensures value { option_map (λ job. asked job) result ≡ divided_job_of (map string_bytes words.now) }
    ensures right { IfSome result (λ job. IsInRange job) }
{
    let (mesh, options) = value_of("--mesh", words)?;
    let (sizes, options) = sizes_of(options)?;
    let (division, options) = division_of(options)?;
    job_with(mesh, sizes, Some(division), options)
}

/// The job that the words ask for. None where they are of neither form, in its order.
#[tactic(auto, unfolding(crate::specs::Words::job_of))]
pub fn job_of<'a>(words: &'a [String]) -> Option<Job<'a>>
    ensures value { option_map (λ job. asked job) result ≡ job_of (map string_bytes words.now) }
    ensures right { IfSome result (λ job. IsInRange job) }
{
    match plain_job_of(words) {
        Some(job) => Some(job),
        None => divided_job_of(words),
    }
}
