// The calls of `unifier`, their replies as three numbers, since C has no enums with values: see `in_numbers`. None asks anything of its caller.
// Three take the workspace out of the outcome first: else the compiler makes its copy at the end a memmove, which the archive wants from outside.
ghost use Rattle.std.specs.Prelude.{◌≡◌};
ghost use Rattle.std.proofs.Math.Option.{none};
ghost use Rattle.graph.specs.State.{functor, equation_of};
ghost use Rattle.graph.specs.Book as book;
ghost use Rattle.graph.specs.Goals.{same_goal};
ghost use Rattle.unifier.specs.Replies.{node_number, is_gone};
ghost use Rattle.unifier.specs.Answers.{Answers};
ghost use Rattle.unifier.specs.Equate.{Equates};
ghost use Rattle.unifier.specs.Compare.{Compares};
ghost use Rattle.unifier.specs.Class.{Classifies};
ghost use Rattle.unifier.specs.Check.{Checks};
ghost use Rattle.bench_ffi.specs.Numbers.{refused_numbers, node_numbers, held_numbers, gone_numbers, stance_numbers, class_numbers, passed_numbers, in_numbers, ByNumbers};

use unifier::{GoalAsked, Refusal, Standing, Workspace};

fn refused(r: Refusal) -> [u16; 3]
    ensures { result ≡ refused_numbers r }
{
    let brought = match r {
        Refusal::Clash { lines } => lines,
        Refusal::Cycle { lines } => lines,
        Refusal::BrokenLine { line } => line,
        _ => 0,
    };
    [0, u16::from(r.number()), brought]
}

fn stance(s: Standing) -> [u16; 3]
    ensures { result ≡ stance_numbers s }
{
    match s {
        Standing::Same(lines) => [4, lines, 0],
        Standing::Below(lines) => [5, lines, 0],
        Standing::Above(lines) => [6, lines, 0],
        Standing::Apart => [7, 0, 0],
    }
}

// Declares a functor node.
#[unsafe(no_mangle)]
pub extern "C" fn ffi_declare(
    w: Workspace,
    symbol: u16,
    children: &[u16],
    numbers: &mut [u16; 3],
) -> Workspace
    ensures { ByNumbers (Answers node_number w (book.declare (functor symbol children.now))) (in_numbers node_numbers) numbers.new result }
{
    let o = w.declare_functor(symbol, children);
    *numbers = match o.reply {
        Ok(u) => [1, u16::from(u), 0],
        Err(r) => refused(r),
    };
    o.workspace
}

#[unsafe(no_mangle)]
pub extern "C" fn ffi_withdraw(w: Workspace, name: u16, numbers: &mut [u16; 3]) -> Workspace
    ensures { ByNumbers (Answers is_gone w (book.withdraw name)) (in_numbers gone_numbers) numbers.new result }
{
    let o = w.withdraw(name);
    let workspace = o.workspace;
    *numbers = match o.reply {
        Ok(()) => [3, 0, 0],
        Err(r) => refused(r),
    };
    workspace
}

#[unsafe(no_mangle)]
pub extern "C" fn ffi_equate(
    w: Workspace,
    name: u16,
    left: u16,
    right: u16,
    proof: &mut [u8],
    numbers: &mut [u16; 3],
) -> Workspace
    ensures { ByNumbers (Equates w (equation_of name left right) proof.old proof.new) (in_numbers held_numbers) numbers.new result }
{
    let o = w.equate(name, left, right, proof);
    *numbers = match o.reply {
        Ok(()) => [2, 0, 0],
        Err(r) => refused(r),
    };
    o.workspace
}

#[unsafe(no_mangle)]
pub extern "C" fn ffi_compare(
    w: Workspace,
    u: u16,
    v: u16,
    proof: &mut [u8],
    numbers: &mut [u16; 3],
) -> Workspace
    ensures { ByNumbers (Compares w u v proof.old proof.new) (in_numbers stance_numbers) numbers.new result }
{
    let o = w.compare(u, v, proof);
    let workspace = o.workspace;
    *numbers = match o.reply {
        Ok(s) => stance(s),
        Err(r) => refused(r),
    };
    workspace
}

#[unsafe(no_mangle)]
pub extern "C" fn ffi_class_of(w: Workspace, u: u16, numbers: &mut [u16; 3]) -> Workspace
    ensures { ByNumbers (Classifies w u) (in_numbers class_numbers) numbers.new result }
{
    let o = w.class_of(u);
    *numbers = match o.reply {
        Ok(k) => [8, u16::from(k.number), u16::from(k.size)],
        Err(r) => refused(r),
    };
    o.workspace
}

// Whether the lines show same(u, v), with no equation offered.
#[unsafe(no_mangle)]
pub extern "C" fn ffi_check_same(
    w: Workspace,
    lines: &[u8],
    u: u16,
    v: u16,
    numbers: &mut [u16; 3],
) -> Workspace
    ensures { ByNumbers (Checks w none (same_goal u v) lines.now) (in_numbers passed_numbers) numbers.new result }
{
    let o = w.check(None, lines, GoalAsked::Same(u, v));
    let workspace = o.workspace;
    *numbers = match o.reply {
        Ok(()) => [9, 0, 0],
        Err(r) => refused(r),
    };
    workspace
}
