// The reassembler's state on the desk.
ghost use Rattle.std.specs.Prelude.{◌≡◌};
ghost use Rattle.desk.specs.Taken.{reassembly_on};
ghost use Rattle.desk.specs.Put.{with_assembly, with_reassembly};

use crate::{ASSEMBLY, Desk, byte, word};
use transport::reassembly::{Assembly, Reassembly};

// Takes the state.
pub fn take(desk: &Desk) -> Reassembly
    ensures { result ≡ reassembly_on desk.now }
{
    let message = match desk[ASSEMBLY] {
        0 => None,
        _ => Some(Assembly {
            nad: byte(desk[ASSEMBLY + 1]),
            length: word(desk[ASSEMBLY + 2]),
            count: word(desk[ASSEMBLY + 3]),
            counter: byte(desk[ASSEMBLY + 4]),
        }),
    };
    Reassembly { message }
}

// Puts a state.
pub fn put(desk: &mut Desk, reassembly: Reassembly)
    ensures { desk.new ≡ with_reassembly reassembly desk.old }
{
    match reassembly.message {
        None => desk[ASSEMBLY] = 0,
        Some(message) => put_open(desk, message),
    }
}

// Puts a message that is being put together.
fn put_open(desk: &mut Desk, assembly: Assembly)
    ensures { desk.new ≡ with_assembly assembly desk.old }
{
    desk[ASSEMBLY] = 1;
    desk[ASSEMBLY + 1] = u32::from(assembly.nad);
    desk[ASSEMBLY + 2] = u32::from(assembly.length);
    desk[ASSEMBLY + 3] = u32::from(assembly.count);
    desk[ASSEMBLY + 4] = u32::from(assembly.counter);
}
