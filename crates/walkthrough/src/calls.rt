// The calls of the sample round.
use round::Command;

// A bit of everything: calls that are refused, each way to raise cutoffs, a change of mind, and the posting.
pub fn sample_calls() -> [Command<'static>; 10] {
    [
        Command::Press(4),
        Command::Post,
        Command::Press(1),
        Command::Sweep,
        Command::Settle(16000),
        Command::Wish(3, &[2]),
        Command::Wish(5, &[1, 1]),
        Command::Settle(16000),
        Command::Post,
        Command::Press(1),
    ]
}
