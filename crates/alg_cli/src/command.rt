//! What the words after the program's name ask for.

ghost use Rattle.std.specs.Prelude.{◌≡◌, ◌≤◌, ◌<◌, ◌^◌, ◌-◌, MatchBool, IfSome};
ghost use Rattle.std.specs.Str.{all_ascii_digits};
ghost use Rattle.alg_load.specs.Limits.{MAX_LOAD};
ghost use Rattle.alg_cli.specs.Commands.{command_of, is_number, goals_of, AsksForFew, ReadsInput, most_bytes};

use alg_load::GREATEST_LOAD;

/// What the program is asked to do.
#[derive(Clone, Copy, Debug, PartialEq, Eq)]
pub enum Command {
    /// Read a file, and write it back with the answers to its goals.
    Prove,
    /// Read a file with answers, and report on the answer to each of its goals.
    Check,
    /// Answer the loaded file of so many goals, and write how many of them are proved.
    Load(u32),
    /// Say how the program is used, since the words ask for nothing that it knows.
    Usage,
}

impl Command {
    /// What the words ask for. Takes no memory.
    pub fn of(words: &[String]) -> Command
        ensures command { result ≡ command_of words.now }
        ensures few { AsksForFew result }
    {
        match words {
            [word] if word.as_str() == "prove" => Command::Prove,
            [word] if word.as_str() == "check" => Command::Check,
            [word, number] if word.as_str() == "load" => match goals_of(number.as_str()) {
                Some(goals) => Command::Load(goals),
                None => Command::Usage,
            },
            _ => Command::Usage,
        }
    }

    /// Whether it reads the input.
    pub fn reads_input(self) -> bool
        ensures { MatchBool result (ReadsInput self) (¬ ReadsInput self) }
    {
        match self {
            Command::Prove | Command::Check => true,
            Command::Load(_) | Command::Usage => false,
        }
    }

    /// How many bytes of input it reads at most.
    pub fn most_bytes(self) -> usize
        ensures most { result ≡ most_bytes self }
        ensures fits { result < 2 ^ 64 - 1 }
    {
        match self {
            Command::Prove => 1_048_576,
            Command::Check => 16_777_216,
            Command::Load(_) | Command::Usage => 0,
        }
    }
}

/// How many goals a word asks for: `0`, or digits of which the first is not 0, and no more than
/// [`GREATEST_LOAD`].
fn goals_of(word: &str) -> Option<u32>
    ensures goals { result ≡ goals_of word.now }
    ensures few { IfSome result (λ goals. goals ≤ MAX_LOAD) }
{
    if !is_number(word.as_bytes()) {
        return None;
    }
    match word.parse::<u32>() {
        Ok(goals) if goals <= GREATEST_LOAD => Some(goals),
        _ => None,
    }
}

/// Whether a word is `0`, or digits of which the first is not 0.
fn is_number(word: &[u8]) -> bool
    ensures { result ≡ is_number word.now }
{
    match word {
        [] => false,
        [first, rest @ ..] => are_digits(word) && (*first != b'0' || rest.is_empty()),
    }
}

fn are_digits(word: &[u8]) -> bool
    ensures { result ≡ all_ascii_digits word.now }
{
    for byte in word {
        if !byte.is_ascii_digit() {
            return false;
        }
    }
    true
}
