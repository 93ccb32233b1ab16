//! The forms of words.
ghost use Rattle.std.specs.Prelude.{◌≡◌, ◌≤◌, IfSome};
ghost use Rattle.std.specs.Str.{all_ascii_digits};
ghost use Rattle.ep_program.specs.Words.{form_of, load_of, count_spelled, number_spelled, IsAllowed};

// The most transactions of a load.
const MOST: u32 = 400;

/// The forms of words.
#[derive(Clone, Copy, Debug, PartialEq, Eq)]
pub enum Form {
    /// `run`: the report of a document.
    Run,
    /// `run trace`: the report with each exchange before the events that it adds.
    RunTrace,
    /// `replay`: the report of a document against its trace.
    Replay,
    /// `check`: whether the lines of a document's trace are allowed.
    Check,
    /// `inventory`: every Type A card of each transaction of a document.
    Inventory,
    /// `load SEED COUNT`: the summary line of a generated load.
    Load {
        /// The seed, of at most nine decimal digits.
        seed: u32,
        /// How many transactions the load has: 1 to 400.
        count: u16,
    },
}

/// The form in which the words are. `None` exactly where they are in none.
pub fn form_of(words: &[String]) -> Option<Form>
    ensures form { result ≡ form_of words.now }
    ensures allowed { IfSome result IsAllowed }
{
    match words {
        [run] => {
            if run.as_str() == "run" {
                Some(Form::Run)
            } else if run.as_str() == "replay" {
                Some(Form::Replay)
            } else if run.as_str() == "check" {
                Some(Form::Check)
            } else if run.as_str() == "inventory" {
                Some(Form::Inventory)
            } else {
                None
            }
        }
        [run, trace] => {
            if run.as_str() == "run" && trace.as_str() == "trace" {
                Some(Form::RunTrace)
            } else {
                None
            }
        }
        [load, seed, count] => {
            if load.as_str() == "load" {
                load_of(seed.as_str(), count.as_str())
            } else {
                None
            }
        }
        _ => None,
    }
}

// The load of this seed and this count of transactions.
fn load_of(seed: &str, count: &str) -> Option<Form>
    ensures form { result ≡ load_of seed.now count.now }
    ensures allowed { IfSome result IsAllowed }
{
    let seed = number_spelled(seed)?;
    let count = count_spelled(count)?;
    Some(Form::Load { seed, count })
}

// How many transactions a load has.
fn count_spelled(digits: &str) -> Option<u16>
    ensures count { result ≡ count_spelled digits.now }
    ensures allowed { IfSome result (λ n. (1 ≤ n) × (n ≤ 400)) }
{
    let count = number_spelled(digits)?;
    if 1 <= count && count <= MOST {
        Some(count as u16)
    } else {
        None
    }
}

// A number of 1 to 9 decimal digits.
fn number_spelled(digits: &str) -> Option<u32>
    ensures { result ≡ number_spelled digits.now }
{
    let count = digits.len();
    if count < 1 || 9 < count || !are_digits(digits.as_bytes()) {
        return None;
    }
    match digits.parse::<u32>() {
        Ok(number) => Some(number),
        Err(_) => None,
    }
}

// Whether all bytes are decimal digits.
fn are_digits(bytes: &[u8]) -> bool
    ensures { result ≡ all_ascii_digits bytes.now }
{
    for byte in bytes {
        if !byte.is_ascii_digit() {
            return false;
        }
    }
    true
}
