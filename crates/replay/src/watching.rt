// Operation 7: the order watcher, told one kind after another.
use crate::input::CaseReader;
use crate::stop::Stop;
use order::watcher::Watcher;
use std::io::Read;

// Tells a watcher, begun with the context, the kinds that follow it: what it says to each. Contexts
// and kinds are below 256, which the remainder says to the proof.
pub fn run<R: Read + Drop>(rt: &impl Print, input: &mut CaseReader<R>) -> Result<(), Stop> {
    let context = input.number()?;
    let kinds = input.row()?;
    let _ = print!(rt; "7");
    let mut watcher = Watcher::begin((context % 256) as u8);
    for kind in &kinds {
        let told = watcher.tell((*kind % 256) as u8);
        watcher = told.watcher;
        let _ = print!(rt; " {}", u8::from(told.yes));
    }
    let _ = println!(rt; "");
    Ok(())
}
