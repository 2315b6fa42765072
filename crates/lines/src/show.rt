// What a line is read as, with spaces between the fields.
use std::io::Stdout;
use text::line;

// What cannot be written is left out.
pub fn line(stdout: Stdout, s: &[u8]) {
    let shown = match line::read(s) {
        Ok(call) => println!(stdout; "{call}"),
        Err(r) => println!(stdout; "no {}", r.number()),
    };
    shown.unwrap_or(());
}
