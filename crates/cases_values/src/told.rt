// How an answer reads in a line.
use rules::Refusal;
use std::fmt;

// A value, or the refusal in its place.
#[derive(Drop)]
pub(crate) struct Told<T: Drop>(pub(crate) Result<T, Refusal>);

impl<T: fmt::Display + Drop> fmt::Display for Told<T> {
    fn fmt<W: fmt::Write>(&self, f: &mut fmt::Formatter<W>) -> fmt::Result {
        match &self.0 {
            Ok(value) => value.fmt(f),
            Err(t) => {
                let mut room = [0; 64];
                let n = listing::refusal(&mut room, *t);
                for byte in wire::piece(&room, 0, n) {
                    f.write_char(char::from(*byte))?;
                }
                Ok(())
            }
        }
    }
}
