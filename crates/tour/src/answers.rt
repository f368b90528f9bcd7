// A list of calls as it was answered.
use std::fmt::Display;

pub fn print_answers<C: Display, A: Display>(
    rt: &HostRuntime,
    calls: &[C],
    answers: &[A],
) -> anyhow::Result<()> {
    for (call, answer) in calls.iter().zip(answers) {
        println!(rt; "{call}: {answer}")?;
    }
    Ok(())
}
