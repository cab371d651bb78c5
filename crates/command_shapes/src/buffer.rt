//! Lines that wait in a buffer, and are written in pieces.
ghost use Rattle.std.specs.Prelude.{◌≡◌, ◌+◌, ◌≤◌, ◌++◌, ℕ, List, [], None, Some, vec_len, vec_capacity, OnOk, IfErr, IsErrOf};
ghost use Rattle.ann_shelf.specs.Faults.{Rose};
ghost use Rattle.ann_shelf.specs.Written.{Got};
ghost use Rattle.command_shapes.specs.Writing.{Printed};
ghost use Rattle.command_shapes.specs.Waiting.{WaitIn};

use crate::printing::print;
use ann_shelf::Out;
use annbuild_lines::Fault;

/// The bytes that a buffer of lines gathers before they are written, where no line is longer.
pub const PIECE: usize = 65_536;

/// Prints the bytes that wait, in one piece, and empties the buffer. Nothing is written where nothing waits.
///
/// It takes no memory of its own. After a fault it isn't said what the buffer holds.
pub fn flush<O: Out>(buffer: &mut Vec<u8>, out: &mut O) -> Result<(), Fault>
    ensures printed { OnOk result ((lines : List (List ℕ)) (had : Got) → WaitIn lines buffer.old.items had (O.got out.old) → Printed lines had (O.got out.new) None) }
    ensures empty { OnOk result (buffer.new.items ≡ []) }
    ensures failed { IfErr result (λ fault. (lines rest : List (List ℕ)) (had : Got) → WaitIn lines buffer.old.items had (O.got out.old) → Printed (lines ++ rest) had (O.got out.new) (Some fault)) }
    ensures want { IsErrOf result Fault.NoMemory → Rose (O.got out.old).wants (O.got out.new).wants }
    ensures capacity { vec_capacity buffer.new ≡ vec_capacity buffer.old }
{
    if buffer.is_empty() {
        return Ok(());
    }
    print(out, buffer.as_slice())?;
    buffer.clear();
    Ok(())
}

/// Makes room for so many bytes more: prints the bytes that wait where they leave too little.
///
/// It takes no memory of its own. After a fault it isn't said what the buffer holds.
pub fn make_room<O: Out>(buffer: &mut Vec<u8>, more: usize, out: &mut O) -> Result<(), Fault>
    requires { more ≤ vec_capacity buffer.old }
    ensures room { OnOk result (vec_len buffer.new + more ≤ vec_capacity buffer.new) }
    ensures waiting { OnOk result ((lines : List (List ℕ)) (had : Got) → WaitIn lines buffer.old.items had (O.got out.old) → WaitIn lines buffer.new.items had (O.got out.new)) }
    ensures failed { IfErr result (λ fault. (lines rest : List (List ℕ)) (had : Got) → WaitIn lines buffer.old.items had (O.got out.old) → Printed (lines ++ rest) had (O.got out.new) (Some fault)) }
    ensures want { IsErrOf result Fault.NoMemory → Rose (O.got out.old).wants (O.got out.new).wants }
    ensures capacity { vec_capacity buffer.new ≡ vec_capacity buffer.old }
{
    if more <= buffer.capacity() - buffer.len() {
        return Ok(());
    }
    flush(buffer, out)
}
