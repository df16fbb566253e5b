//! The command that a mistyped word is nearly.

// The commands, the shortest words first among those that begin alike.
const COMMANDS: [&str; 20] = [
    "address", "audit", "copy", "decode", "demo", "fit", "fold", "format", "inspect", "move",
    "out", "poll", "read", "report", "rescue", "run", "scan", "status", "swap", "values",
];

/// The command that differs from a word by one letter that is missing, too much or another, or by two letters that
/// changed places; of several the first.
pub fn nearest(word: &str) -> Option<&'static str> {
    let word = word.as_bytes();
    for name in COMMANDS {
        let command = name.as_bytes();
        // Number of letters in which both begin alike.
        let same = word.iter().zip(command).take_while(|(a, b)| a == b).count();
        let (Some(left), Some(wanted)) = (word.get(same..), command.get(same..)) else {
            continue;
        };
        match (left, wanted) {
            ([_, left @ ..], [_, wanted @ ..]) if left == wanted => return Some(name),
            ([_, left @ ..], _) if left == wanted => return Some(name),
            (_, [_, wanted @ ..]) if left == wanted => return Some(name),
            ([a, b, left @ ..], [c, d, wanted @ ..]) if a == d && b == c && left == wanted => {
                return Some(name);
            }
            _ => {}
        }
    }
    None
}
