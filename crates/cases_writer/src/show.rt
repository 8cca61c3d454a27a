// One case: what is changed of good values, the writer's verdict, and what became of the output.
ghost use Rattle.std.specs.Prelude.{◌≡◌, ◌↔◌, IsTrue, All};

use crate::change::Change;
use crate::given::Given;
use std::io;

// The byte that every output is filled with before a case: it shows what was kept.
const BLANK: u8 = 0xaa;

// A line that cases_headers has, too: no crate below both would be its place.
fn is_blank(out: &[u8]) -> bool
    ensures { IsTrue result ↔ All (λ byte. byte ≡ BLANK) out.now }
{
    out.iter().all(|&byte| byte == BLANK)
}

fn tell(rt: &impl Print, changes: &[Change]) -> io::Result<()> {
    let Some((first, further)) = changes.split_first() else {
        return print!(rt; "good values");
    };
    print!(rt; "{first}")?;
    for change in further {
        print!(rt; ", {change}")?;
    }
    Ok(())
}

pub(crate) fn case(rt: &impl Print, changes: &[Change]) -> io::Result<()> {
    tell(rt, changes)?;
    let mut out = [BLANK; 2048];
    let verdict = Given::new(changes).write(&mut out);
    let mut room = [0; 64];
    let n = say::verdict(&mut room, verdict, b"written");
    print!(rt; ": ")?;
    rt.write_all(wire::piece(&room, 0, n))?;
    // the header of good values has 1,535 bytes
    if is_blank(&out) {
        println!(rt; ", output kept")
    } else if is_blank(&out[1535..]) {
        println!(rt; ", rest kept")
    } else {
        println!(rt; ", REST CHANGED")
    }
}
