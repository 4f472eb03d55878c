//! The command words, and the arguments of each.

ghost use Rattle.std.specs.Prelude.{◌≡◌, ◌≤◌, ◌++◌, pos, true, false, map, decimal, length, IfOk, IfErr, IfSome};
ghost use Rattle.states.specs.Raster.{raster_setting};
ghost use Rattle.scenetext.specs.Seen.{verb_value};
ghost use Rattle.scenetext.specs.Numbers.{fit};
ghost use Rattle.scenetext.specs.Scene.{Execute};
ghost use Rattle.scenetext.specs.Reading.{Reads, Refuses, ReadsCounted, RefusesCounted};
ghost use Rattle.scenetext.specs.Commands.{ranges, raster_numbers};
ghost use Rattle.scenetext.specs.Ranges.{kinds, AreIn};

use crate::argument::next_argument;
use crate::fault::{Fault, ReadError};
use crate::numbers::{
    expect, next_color, next_context, next_face, next_integer, next_nonzero, next_vertex,
};
use crate::scene::Verb;
use crate::words::Words;
use command::{Buffer, Command};
use gfxspec::PixelRect;
use states::{BlendDesc, BlendState, DepthStencilDesc, DepthStencilState, RasterDesc, RasterState};
use std::alloc::Allocator;

/// A command word.
#[derive(Clone, Copy)]
pub enum CommandWord {
    Vb,
    Ib,
    Topology,
    Raster,
    Scissor,
    Ds,
    Blend,
    Predicate,
    Draw,
    Drawi,
    Clearc,
    Cleards,
    Begin,
    End,
    Finish,
    Flush,
    Exec,
    Query,
    Pixel,
}

const COMMANDS: [CommandWord; 19] = [
    CommandWord::Vb,
    CommandWord::Ib,
    CommandWord::Topology,
    CommandWord::Raster,
    CommandWord::Scissor,
    CommandWord::Ds,
    CommandWord::Blend,
    CommandWord::Predicate,
    CommandWord::Draw,
    CommandWord::Drawi,
    CommandWord::Clearc,
    CommandWord::Cleards,
    CommandWord::Begin,
    CommandWord::End,
    CommandWord::Finish,
    CommandWord::Flush,
    CommandWord::Exec,
    CommandWord::Query,
    CommandWord::Pixel,
];

impl CommandWord {
    ghost use Rattle.scenetext.specs.Commands.{name, serves, command_named};

    fn text(self) -> &'static [u8]
        ensures { result.now ≡ name self }
    {
        match self {
            CommandWord::Vb => b"vb",
            CommandWord::Ib => b"ib",
            CommandWord::Topology => b"topology",
            CommandWord::Raster => b"raster",
            CommandWord::Scissor => b"scissor",
            CommandWord::Ds => b"ds",
            CommandWord::Blend => b"blend",
            CommandWord::Predicate => b"predicate",
            CommandWord::Draw => b"draw",
            CommandWord::Drawi => b"drawi",
            CommandWord::Clearc => b"clearc",
            CommandWord::Cleards => b"cleards",
            CommandWord::Begin => b"begin",
            CommandWord::End => b"end",
            CommandWord::Finish => b"finish",
            CommandWord::Flush => b"flush",
            CommandWord::Exec => b"exec",
            CommandWord::Query => b"query",
            CommandWord::Pixel => b"pixel",
        }
    }

    /// Whether the immediate context has the command or, as `immediate` says, a deferred one.
    fn is_for(self, immediate: bool) -> bool
        ensures { result ≡ serves self immediate }
    {
        match self {
            CommandWord::Finish => !immediate,
            CommandWord::Flush | CommandWord::Exec | CommandWord::Query | CommandWord::Pixel =>
                immediate,
            _ => true,
        }
    }

    /// The command of a word, if it is one of the immediate context or, as `immediate` says, of a deferred one.
    pub(crate) fn named(word: &[u8], immediate: bool) -> Option<CommandWord>
        ensures value { result ≡ command_named word.now immediate }
        ensures some { IfSome result (λ c. (word.now ≡ name c) × (serves c immediate ≡ true)) }
    {
        COMMANDS.iter().copied().find(|command| word == command.text() && command.is_for(immediate))
    }
}

fn set_vertices<A: Allocator + Copy>(alloc: A, words: &mut Words) -> Result<Verb<A>, ReadError>
    ensures ok { IfOk result (λ v. Reads CommandWord.Vb words.old (verb_value v)) }
    ensures err { IfErr result (Refuses CommandWord.Vb words.old) }
{
    let count = words.count();
    if count % 7 != 0 {
        return Err(ReadError::Fault(Fault::ArgumentCount));
    }
    let mut vertices = Vec::with_capacity(alloc, count / 7)?;
    for _ in 0..count / 7 {
        vertices.push(next_vertex(words)?)?;
    }
    Ok(Verb::Record(Command::SetVertices(Buffer::from_vec(vertices)?)))
}

fn set_indices<A: Allocator + Copy>(alloc: A, words: &mut Words) -> Result<Verb<A>, ReadError>
    ensures ok { IfOk result (λ v. Reads CommandWord.Ib words.old (verb_value v)) }
    ensures err { IfErr result (Refuses CommandWord.Ib words.old) }
{
    let count = words.count();
    let mut indices = Vec::with_capacity(alloc, count)?;
    for _ in 0..count {
        indices.push(next_argument(words)?)?;
    }
    Ok(Verb::Record(Command::SetIndices(Buffer::from_vec(indices)?)))
}

fn set_topology<A: Allocator>(words: &mut Words) -> Result<Verb<A>, ReadError>
    ensures ok { IfOk result (λ v. Reads CommandWord.Topology words.old (verb_value v)) }
    ensures err { IfErr result (Refuses CommandWord.Topology words.old) }
{
    expect(words, 1)?;
    Ok(Verb::Record(Command::SetTopology(next_argument(words)?)))
}

/// The rasterizer state that the next three words spell, with no bias.
fn next_raster(words: &mut Words) -> Result<RasterDesc, ReadError>
    requires { 3 ≤ length words.old }
    ensures ok { IfOk result (λ raster. (words.old ≡ map decimal (raster_numbers (raster_setting raster)) ++ words.new) × AreIn (ranges CommandWord.Raster) (raster_numbers (raster_setting raster)) × (raster.depth_bias ≡ pos 0)) }
    ensures err { IfErr result (λ e. (e ≡ ReadError.Fault Fault.Argument) × (fit (kinds (ranges CommandWord.Raster)) words.old ≡ false)) }
{
    Ok(RasterDesc {
        cull: next_argument(words)?,
        front_ccw: next_argument(words)?,
        scissor: next_argument(words)?,
        depth_bias: 0,
    })
}

/// The rasterizer state of four words, of which the last is a bias.
#[tactic(auto, using(crate::proofs::ReadLemmas::numbers_refused, crate::proofs::ReadLemmas::bias_refused))]
fn set_biased_raster<A: Allocator>(words: &mut Words) -> Result<Verb<A>, ReadError>
    requires { length words.old ≡ 4 }
    ensures ok { IfOk result (λ v. Reads CommandWord.Raster words.old (verb_value v)) }
    ensures err { IfErr result (Refuses CommandWord.Raster words.old) }
{
    let raster = next_raster(words)?;
    let depth_bias = next_nonzero(words)?;
    let raster = RasterState::new(RasterDesc {
        depth_bias,
        ..raster
    });
    Ok(Verb::Record(Command::SetRaster(raster)))
}

fn set_raster<A: Allocator>(words: &mut Words) -> Result<Verb<A>, ReadError>
    ensures ok { IfOk result (λ v. Reads CommandWord.Raster words.old (verb_value v)) }
    ensures err { IfErr result (Refuses CommandWord.Raster words.old) }
{
    if words.count() == 4 {
        return set_biased_raster(words);
    }
    expect(words, 3)?;
    let raster = next_raster(words)?;
    Ok(Verb::Record(Command::SetRaster(RasterState::new(raster))))
}

fn set_scissor<A: Allocator>(words: &mut Words) -> Result<Verb<A>, ReadError>
    ensures ok { IfOk result (λ v. Reads CommandWord.Scissor words.old (verb_value v)) }
    ensures err { IfErr result (Refuses CommandWord.Scissor words.old) }
{
    expect(words, 4)?;
    Ok(Verb::Record(Command::SetScissor(PixelRect {
        left: next_argument(words)?,
        top: next_argument(words)?,
        right: next_argument(words)?,
        bottom: next_argument(words)?,
    })))
}

fn set_depth_stencil<A: Allocator>(words: &mut Words) -> Result<Verb<A>, ReadError>
    ensures ok { IfOk result (λ v. Reads CommandWord.Ds words.old (verb_value v)) }
    ensures err { IfErr result (Refuses CommandWord.Ds words.old) }
{
    expect(words, 15)?;
    let state = DepthStencilState::new(DepthStencilDesc {
        depth: next_argument(words)?,
        write: next_argument(words)?,
        func: next_argument(words)?,
        stencil: next_argument(words)?,
        read_mask: next_argument(words)?,
        write_mask: next_argument(words)?,
        front: next_face(words)?,
        back: next_face(words)?,
    });
    let reference = next_argument(words)?;
    Ok(Verb::Record(Command::SetDepthStencil(state, reference)))
}

fn set_blend<A: Allocator>(words: &mut Words) -> Result<Verb<A>, ReadError>
    ensures ok { IfOk result (λ v. Reads CommandWord.Blend words.old (verb_value v)) }
    ensures err { IfErr result (Refuses CommandWord.Blend words.old) }
{
    expect(words, 3)?;
    let blend = BlendState::new(BlendDesc {
        logic: next_argument(words)?,
        op: next_argument(words)?,
        mask: next_argument(words)?,
    });
    Ok(Verb::Record(Command::SetBlend(blend)))
}

fn set_predication<A: Allocator>(words: &mut Words) -> Result<Verb<A>, ReadError>
    ensures ok { IfOk result (λ v. Reads CommandWord.Predicate words.old (verb_value v)) }
    ensures err { IfErr result (Refuses CommandWord.Predicate words.old) }
{
    if words.count() == 0 {
        return Ok(Verb::Record(Command::SetPredication(None)));
    }
    expect(words, 2)?;
    let query = next_argument(words)?;
    let value = next_argument(words)?;
    Ok(Verb::Record(Command::SetPredication(Some((query, value)))))
}

fn draw<A: Allocator>(words: &mut Words) -> Result<Verb<A>, ReadError>
    ensures ok { IfOk result (λ v. Reads CommandWord.Draw words.old (verb_value v)) }
    ensures err { IfErr result (Refuses CommandWord.Draw words.old) }
{
    expect(words, 2)?;
    let count = next_argument(words)?;
    let start = next_argument(words)?;
    Ok(Verb::Record(Command::Draw(count, start)))
}

fn draw_indexed<A: Allocator>(words: &mut Words) -> Result<Verb<A>, ReadError>
    ensures ok { IfOk result (λ v. Reads CommandWord.Drawi words.old (verb_value v)) }
    ensures err { IfErr result (Refuses CommandWord.Drawi words.old) }
{
    expect(words, 3)?;
    let count = next_argument(words)?;
    let start = next_argument(words)?;
    let base = next_integer(words)?;
    Ok(Verb::Record(Command::DrawIndexed(count, start, base)))
}

fn clear_color<A: Allocator>(words: &mut Words) -> Result<Verb<A>, ReadError>
    ensures ok { IfOk result (λ v. Reads CommandWord.Clearc words.old (verb_value v)) }
    ensures err { IfErr result (Refuses CommandWord.Clearc words.old) }
{
    expect(words, 4)?;
    Ok(Verb::Record(Command::ClearColor(next_color(words)?)))
}

fn clear_depth_stencil<A: Allocator>(words: &mut Words) -> Result<Verb<A>, ReadError>
    ensures ok { IfOk result (λ v. Reads CommandWord.Cleards words.old (verb_value v)) }
    ensures err { IfErr result (Refuses CommandWord.Cleards words.old) }
{
    expect(words, 2)?;
    let depth = next_argument(words)?;
    let stencil = next_argument(words)?;
    Ok(Verb::Record(Command::ClearDepthStencil(depth, stencil)))
}

fn begin<A: Allocator>(words: &mut Words) -> Result<Verb<A>, ReadError>
    ensures ok { IfOk result (λ v. Reads CommandWord.Begin words.old (verb_value v)) }
    ensures err { IfErr result (Refuses CommandWord.Begin words.old) }
{
    expect(words, 1)?;
    Ok(Verb::Record(Command::Begin(next_argument(words)?)))
}

fn end<A: Allocator>(words: &mut Words) -> Result<Verb<A>, ReadError>
    ensures ok { IfOk result (λ v. Reads CommandWord.End words.old (verb_value v)) }
    ensures err { IfErr result (Refuses CommandWord.End words.old) }
{
    expect(words, 1)?;
    Ok(Verb::Record(Command::End(next_argument(words)?)))
}

fn finish<A: Allocator>(words: &mut Words) -> Result<Verb<A>, ReadError>
    ensures ok { IfOk result (λ v. Reads CommandWord.Finish words.old (verb_value v)) }
    ensures err { IfErr result (Refuses CommandWord.Finish words.old) }
{
    expect(words, 1)?;
    Ok(Verb::Finish(next_argument(words)?))
}

fn flush<A: Allocator>(words: &mut Words) -> Result<Verb<A>, ReadError>
    ensures ok { IfOk result (λ v. Reads CommandWord.Flush words.old (verb_value v)) }
    ensures err { IfErr result (Refuses CommandWord.Flush words.old) }
{
    expect(words, 0)?;
    Ok(Verb::Flush)
}

/// The context, the number of the list, and whether the state is kept.
fn next_list(words: &mut Words) -> Result<(u32, u32, bool), ReadError>
    ensures ok { IfOk result (λ list. Reads CommandWord.Exec words.old (Execute list.0 list.1 list.2)) }
    ensures err { IfErr result (Refuses CommandWord.Exec words.old) }
{
    expect(words, 3)?;
    let context = next_context(words)?;
    let list = next_argument(words)?;
    let restore = next_argument(words)?;
    Ok((context, list, restore))
}

/// The execution of a list that is finished.
fn execute<A: Allocator>(finished: &[u64; 8], words: &mut Words) -> Result<Verb<A>, ReadError>
    ensures ok { IfOk result (λ v. ReadsCounted finished.now CommandWord.Exec words.old (verb_value v)) }
    ensures err { IfErr result (RefusesCounted finished.now CommandWord.Exec words.old) }
{
    let (context, list, restore) = next_list(words)?;
    if finished[context as usize] <= list as u64 {
        return Err(ReadError::Fault(Fault::NoSuchList));
    }
    Ok(Verb::Execute(context, list, restore))
}

fn query<A: Allocator>(words: &mut Words) -> Result<Verb<A>, ReadError>
    ensures ok { IfOk result (λ v. Reads CommandWord.Query words.old (verb_value v)) }
    ensures err { IfErr result (Refuses CommandWord.Query words.old) }
{
    expect(words, 1)?;
    Ok(Verb::Query(next_argument(words)?))
}

fn pixel<A: Allocator>(words: &mut Words) -> Result<Verb<A>, ReadError>
    ensures ok { IfOk result (λ v. Reads CommandWord.Pixel words.old (verb_value v)) }
    ensures err { IfErr result (Refuses CommandWord.Pixel words.old) }
{
    expect(words, 2)?;
    let x = next_argument(words)?;
    let y = next_argument(words)?;
    Ok(Verb::Pixel(x, y))
}

/// The verb of a command with these arguments, where the contexts have finished so many lists.
#[tactic(auto, using(crate::proofs::ReadLemmas::counted, crate::proofs::ReadLemmas::refused_counted))]
pub(crate) fn verb_of<A: Allocator + Copy>(
    alloc: A,
    finished: &[u64; 8],
    command: CommandWord,
    words: &mut Words,
) -> Result<Verb<A>, ReadError>
    ensures ok { IfOk result (λ v. ReadsCounted finished.now command words.old (verb_value v)) }
    ensures err { IfErr result (RefusesCounted finished.now command words.old) }
{
    match command {
        CommandWord::Vb => set_vertices(alloc, words),
        CommandWord::Ib => set_indices(alloc, words),
        CommandWord::Topology => set_topology(words),
        CommandWord::Raster => set_raster(words),
        CommandWord::Scissor => set_scissor(words),
        CommandWord::Ds => set_depth_stencil(words),
        CommandWord::Blend => set_blend(words),
        CommandWord::Predicate => set_predication(words),
        CommandWord::Draw => draw(words),
        CommandWord::Drawi => draw_indexed(words),
        CommandWord::Clearc => clear_color(words),
        CommandWord::Cleards => clear_depth_stencil(words),
        CommandWord::Begin => begin(words),
        CommandWord::End => end(words),
        CommandWord::Finish => finish(words),
        CommandWord::Flush => flush(words),
        CommandWord::Exec => execute(finished, words),
        CommandWord::Query => query(words),
        CommandWord::Pixel => pixel(words),
    }
}
