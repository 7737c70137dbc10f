//! What C calls. The memory at a handle is the caller's: `stratbench_size` bytes, aligned to 16.

ghost use Rattle.script_text.specs.declared.framing.Framing.TheVariants.{Continued, Lines};
ghost use Rattle.session_loading.specs.Loading.{LoadsModule, LoadsTree};
ghost use Rattle.stratbench_c.specs.Loads.{TellsLibrary, TellsLoad, TellsShown};
ghost use Rattle.stratbench_c.specs.Runs.{AreCopied, IsNew, MakesStopper, TellsExplained, TellsLimited, TellsRun, TellsStop, answers_of, ends_of, hints_of, limits_of};
ghost use Rattle.stratbench_c.specs.declared.bench.Bench.{Bench as AnyBench};
ghost use Rattle.stratbench_c.specs.contracts.bench.Bench as R;
ghost use Rattle.stratbench_c.specs.declared.stopping.Stopper.{Stopper as AnyStopper};
ghost use Rattle.stratbench_c.specs.contracts.stopping.Stopper as S;
ghost use Rattle.std.specs.Prelude.{◌≡◌};
ghost use base.Fraction.{full_share};
ghost use prog.Memory.{capped, size};
ghost use denote.Memory.{lone};
ghost use types.Logic.{sem};
ghost use denote.RawPtr.{lies_at, room_at};

use crate::bench::{
    Bench, copy_answers, copy_ends, copy_hints, end, explain_calls, make, run_lines, run_script,
    set_limits,
};
use crate::loads::{set_library, set_module, set_tree};
use crate::showing::show_tree;
use crate::stopping::{Stopper, ask_to_stop, end_stopper, make_stopper};
use std::alloc::Global;

/// The number of bytes at a handle: of the room that `stratbench_new` takes.
#[unsafe(no_mangle)]
pub extern "C" fn stratbench_size() -> usize
    ensures { result ≡ capped (size (lone R.the_row.mir)) }
{
    std::mem::size_of::<Bench>()
}

/// Makes a new session in the memory at the handle.
#[unsafe(no_mangle)]
pub unsafe extern "C" fn stratbench_new(alloc: Global, handle: *mut u8)
    requires* { sem 𝓛 (room_at R.the_row handle) }
    ensures* { ∃ₛ (λ (new : AnyBench). sem 𝓛 (lies_at R.the_row full_share handle new)
        ∗ ⌜ IsNew new.work ⌝) }
{
    (handle as *mut Bench).write(make(alloc));
}

/// Begins the session anew, with these limits of terms and steps.
#[unsafe(no_mangle)]
pub unsafe extern "C" fn stratbench_limits(handle: *mut u8, max_terms: u32, max_steps: u32) -> u32
    ghost old: { AnyBench }
    requires* { sem 𝓛 (lies_at R.the_row full_share handle old) }
    ensures* { ∃ₛ (λ (new : AnyBench). sem 𝓛 (lies_at R.the_row full_share handle new)
        ∗ ⌜ TellsLimited (limits_of max_terms max_steps) result old.work new.work ⌝) }
{
    set_limits(&mut *(handle as *mut Bench), max_terms, max_steps)
}

/// Loads the library as a step.
#[unsafe(no_mangle)]
pub unsafe extern "C" fn stratbench_library(handle: *mut u8) -> u32
    ghost old: { AnyBench }
    requires* { sem 𝓛 (lies_at R.the_row full_share handle old) }
    ensures* { ∃ₛ (λ (new : AnyBench). sem 𝓛 (lies_at R.the_row full_share handle new)
        ∗ ⌜ TellsLibrary result old.work new.work ⌝) }
{
    set_library(&mut *(handle as *mut Bench))
}

/// Sets the module of this name to a text as a file has it, as a step.
#[unsafe(no_mangle)]
pub unsafe extern "C" fn stratbench_module(handle: *mut u8, name: &[u8], text: &[u8]) -> u32
    ghost old: { AnyBench }
    requires* { sem 𝓛 (lies_at R.the_row full_share handle old) }
    ensures* { ∃ₛ (λ (new : AnyBench). sem 𝓛 (lies_at R.the_row full_share handle new)
        ∗ ⌜ TellsLoad LoadsModule name.now text.now result old.work new.work ⌝) }
{
    set_module(&mut *(handle as *mut Bench), name, text)
}

/// Sets the tree of this name to what the text spells, as a step.
#[unsafe(no_mangle)]
pub unsafe extern "C" fn stratbench_tree(handle: *mut u8, name: &[u8], text: &[u8]) -> u32
    ghost old: { AnyBench }
    requires* { sem 𝓛 (lies_at R.the_row full_share handle old) }
    ensures* { ∃ₛ (λ (new : AnyBench). sem 𝓛 (lies_at R.the_row full_share handle new)
        ∗ ⌜ TellsLoad LoadsTree name.now text.now result old.work new.work ⌝) }
{
    set_tree(&mut *(handle as *mut Bench), name, text)
}

/// Answers the commands of a script, which may go on over lines.
#[unsafe(no_mangle)]
pub unsafe extern "C" fn stratbench_run(handle: *mut u8, script: &[u8], steps: u32) -> u32
    ghost old: { AnyBench }
    requires* { sem 𝓛 (lies_at R.the_row full_share handle old) }
    ensures* { ∃ₛ (λ (new : AnyBench). sem 𝓛 (lies_at R.the_row full_share handle new)
        ∗ ⌜ TellsRun Continued steps script.now result old.work new.work ⌝) }
{
    run_script(&mut *(handle as *mut Bench), script, steps)
}

/// Answers the lines of a script, each a command.
#[unsafe(no_mangle)]
pub unsafe extern "C" fn stratbench_lines(handle: *mut u8, script: &[u8], steps: u32) -> u32
    ghost old: { AnyBench }
    requires* { sem 𝓛 (lies_at R.the_row full_share handle old) }
    ensures* { ∃ₛ (λ (new : AnyBench). sem 𝓛 (lies_at R.the_row full_share handle new)
        ∗ ⌜ TellsRun Lines steps script.now result old.work new.work ⌝) }
{
    run_lines(&mut *(handle as *mut Bench), script, steps)
}

/// Answers the text of the tree of this name, as a line.
#[unsafe(no_mangle)]
pub unsafe extern "C" fn stratbench_show(handle: *mut u8, name: &[u8]) -> u32
    ghost old: { AnyBench }
    requires* { sem 𝓛 (lies_at R.the_row full_share handle old) }
    ensures* { ∃ₛ (λ (new : AnyBench). sem 𝓛 (lies_at R.the_row full_share handle new)
        ∗ ⌜ TellsShown name.now result old.work new.work ⌝) }
{
    show_tree(&mut *(handle as *mut Bench), name)
}

/// Says whether the calls that follow are to be explained: not if `explains` is 0.
#[unsafe(no_mangle)]
pub unsafe extern "C" fn stratbench_explain(handle: *mut u8, explains: u32) -> u32
    ghost old: { AnyBench }
    requires* { sem 𝓛 (lies_at R.the_row full_share handle old) }
    ensures* { ∃ₛ (λ (new : AnyBench). sem 𝓛 (lies_at R.the_row full_share handle new)
        ∗ ⌜ TellsExplained result old.work new.work ⌝) }
{
    explain_calls(&mut *(handle as *mut Bench), explains)
}

/// Copies the answers of the last call to the start of `out` if there is room for them, and
/// returns their length.
#[unsafe(no_mangle)]
pub unsafe extern "C" fn stratbench_copy(handle: *mut u8, out: &mut [u8]) -> usize
    ghost old: { AnyBench }
    requires* { sem 𝓛 (lies_at R.the_row full_share handle old) }
    ensures* { sem 𝓛 (lies_at R.the_row full_share handle old)
        ∗ ⌜ AreCopied (answers_of old.work) out.old out.new result ⌝ }
{
    copy_answers(&mut *(handle as *mut Bench), out)
}

/// Copies where the answers of the last script end to the start of `out` if there is room for that,
/// and returns their number.
#[unsafe(no_mangle)]
pub unsafe extern "C" fn stratbench_ends(handle: *mut u8, out: &mut [usize]) -> usize
    ghost old: { AnyBench }
    requires* { sem 𝓛 (lies_at R.the_row full_share handle old) }
    ensures* { sem 𝓛 (lies_at R.the_row full_share handle old)
        ∗ ⌜ AreCopied (ends_of old.work) out.old out.new result ⌝ }
{
    copy_ends(&mut *(handle as *mut Bench), out)
}

/// Copies what was said of the last call to the start of `out` if there is room for it, and returns
/// its length.
#[unsafe(no_mangle)]
pub unsafe extern "C" fn stratbench_hints(handle: *mut u8, out: &mut [u8]) -> usize
    ghost old: { AnyBench }
    requires* { sem 𝓛 (lies_at R.the_row full_share handle old) }
    ensures* { sem 𝓛 (lies_at R.the_row full_share handle old)
        ∗ ⌜ AreCopied (hints_of old.work) out.old out.new result ⌝ }
{
    copy_hints(&mut *(handle as *mut Bench), out)
}

/// The number of bytes at a stopper's handle.
#[unsafe(no_mangle)]
pub extern "C" fn stratbench_stopper_size() -> usize
    ensures { result ≡ capped (size (lone S.the_row.mir)) }
{
    std::mem::size_of::<Stopper>()
}

/// Makes a stopper for the session's scripts in the memory at its handle, in place of the one
/// before.
#[unsafe(no_mangle)]
pub unsafe extern "C" fn stratbench_stopper_new(handle: *mut u8, stopper: *mut u8)
    ghost old: { AnyBench }
    requires* { sem 𝓛 (lies_at R.the_row full_share handle old)
        ∗ sem 𝓛 (room_at S.the_row stopper) }
    ensures* { ∃ₛ (λ (made : AnyStopper × AnyBench). sem 𝓛 (lies_at S.the_row full_share stopper made.0)
        ∗ sem 𝓛 (lies_at R.the_row full_share handle made.1)
        ∗ ⌜ MakesStopper made.0 old.work made.1.work ⌝) }
{
    (stopper as *mut Stopper).write(make_stopper(&mut *(handle as *mut Bench)));
}

/// Stops the script of the session that is answered, or else the next one. This may be called by
/// another thread than the one of the session.
#[unsafe(no_mangle)]
pub unsafe extern "C" fn stratbench_stop(stopper: *mut u8) -> u32
    ghost old: { AnyStopper }
    requires* { sem 𝓛 (lies_at S.the_row full_share stopper old) }
    ensures* { ∃ₛ (λ (new : AnyStopper). sem 𝓛 (lies_at S.the_row full_share stopper new)
        ∗ ⌜ TellsStop result old new ⌝) }
{
    ask_to_stop(&mut *(stopper as *mut Stopper))
}

/// Ends the stopper. The memory at its handle is room again.
#[unsafe(no_mangle)]
pub unsafe extern "C" fn stratbench_stopper_drop(stopper: *mut u8)
    ghost old: { AnyStopper }
    requires* { sem 𝓛 (lies_at S.the_row full_share stopper old) }
    ensures* { sem 𝓛 (room_at S.the_row stopper) }
{
    end_stopper((stopper as *mut Stopper).read());
}

/// Ends the session. The memory at the handle is room again.
#[unsafe(no_mangle)]
pub unsafe extern "C" fn stratbench_drop(handle: *mut u8)
    ghost old: { AnyBench }
    requires* { sem 𝓛 (lies_at R.the_row full_share handle old) }
    ensures* { sem 𝓛 (room_at R.the_row handle) }
{
    end((handle as *mut Bench).read());
}
