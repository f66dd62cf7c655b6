//! The words of `threads`.

ghost use Rattle.std.specs.Prelude.{◌≡◌, IfSome};
ghost use Rattle.txn_program_threads.specs.ThreadsWords.{IsWithin, counts_of, threads_command_of};

use amqp_txn_types::Text;
use txn_program_edges::count_of;
use txn_program_lines::is_text;

/// What the words ask for.
#[derive(Clone, Copy, Debug, PartialEq, Eq)]
pub struct ThreadsCommand {
    /// How many workers, 1 to 8.
    pub workers: u32,
    /// How many rounds each makes, 1 to 1,000.
    pub rounds: u32,
}

/// The command that the words give, `None` where they are outside the table.
pub fn threads_command_of(words: &[Text]) -> Option<ThreadsCommand>
    ensures command { result ≡ threads_command_of words.now }
    ensures within { IfSome result IsWithin }
{
    let [word, others @ ..] = words else {
        return None;
    };
    if is_text(word.as_str().as_bytes(), "threads") {
        counts_of(others)
    } else {
        None
    }
}

fn counts_of(words: &[Text]) -> Option<ThreadsCommand>
    ensures command { result ≡ counts_of words.now }
    ensures within { IfSome result IsWithin }
{
    let [first, second] = words else {
        return None;
    };
    let Some(workers) = count_of(first.as_str().as_bytes(), 8) else {
        return None;
    };
    let Some(rounds) = count_of(second.as_str().as_bytes(), 1000) else {
        return None;
    };
    Some(ThreadsCommand {
        workers: workers as u32,
        rounds: rounds as u32,
    })
}
