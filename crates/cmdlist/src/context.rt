//! Recording.

ghost use Rattle.std.specs.Prelude.{◌≡◌, ◌<◌, ◌++◌, ◌∷◌, [], length, map, nat_le, replicate, slice_index_or, IfErr, IfOk, IsTrue, OnErr, OnOk, Some, false, true};
ghost use Rattle.std.specs.List.{list_all};
ghost use Rattle.gfxspec.specs.Refusals.{is_in_range};
ghost use Rattle.gfxspec.specs.declared.error.GfxError.TheVariants.{ListTooLong};
ghost use Rattle.gfxspec.specs.Commands.{Kept, SetVertices, SetIndices};
ghost use Rattle.gfxspec.specs.Recorded.{issues, query_begun, query_named, queries_named, queries_open, after_finish, is_drawing};
ghost use Rattle.gfxspec.specs.Refusals.{AnswersBy, first_row, list_rows, finish_rows, some_open, is_among, is_bad_scissor, is_bad_predicate, is_begun_predicate, too_long};
ghost use Rattle.gfxspec.specs.Accepted.{AreAccepted, AreSound};
ghost use Rattle.command.specs.Seen.{command_value, settings_value};

use crate::drawing::{drawn_indexed_triangles, drawn_triangles};
use crate::list::{CommandList, Commands};
use crate::queries::{Queries, is_marked};
use command::{Buffer, Command, DeviceContext, Settings};
use gfxspec::{
    BUFFER_LIMIT, COORDINATE_LIMIT, DEPTH_MAX, GfxError, ISSUE_LIMIT, LIST_LIMIT, PixelRect,
    QUERY_LIMIT, SIDE_LIMIT, Vertex,
};
use std::alloc::Allocator;
use std::marker::Model;
use std::mem;

/// Whether a vertex's position and depth are in range.
fn is_vertex_in_range(vertex: &Vertex) -> bool
    ensures { result ≡ is_in_range vertex.now }
{
    vertex.x.unsigned_abs() <= COORDINATE_LIMIT as u32
        && vertex.y.unsigned_abs() <= COORDINATE_LIMIT as u32
        && vertex.z <= DEPTH_MAX
}

fn are_in_range(vertices: &[Vertex]) -> bool
    ensures { result ≡ list_all is_in_range vertices.now }
{
    vertices.iter().all(is_vertex_in_range)
}

fn is_scissor_bad(scissor: PixelRect) -> bool
    ensures { result ≡ is_bad_scissor scissor }
{
    scissor.right < scissor.left
        || scissor.bottom < scissor.top
        || SIDE_LIMIT < scissor.right
        || SIDE_LIMIT < scissor.bottom
}

/// Whether a predicate has no query.
fn is_predicate_bad(predicate: Option<(u32, bool)>) -> bool
    ensures { result ≡ is_bad_predicate predicate }
{
    match predicate {
        Some((query, _)) => query >= QUERY_LIMIT,
        None => false,
    }
}

/// A context that records commands and runs none (Microsoft Learn, ID3D11DeviceContext, deferred).
#[derive(Drop)]
pub struct DeferredContext<A: Allocator> {
    commands: Vec<Command<A>, A>,
    settings: Settings<A>,
    triangles: u32,
    queries: Queries,
}

impl<A: Allocator> Model for DeferredContext<A> {
    ghost use Rattle.std.specs.Prelude.{List};
    ghost use Rattle.gfxspec.specs.Commands.{Command};

    ghost Value = { List Command };

    ghost use Rattle.cmdlist.specs.Recorder.{commands_of, IsRecorded};

    ghost view = { commands_of };

    ghost invariant = { IsRecorded };
}

impl<A: Allocator + Copy> DeferredContext<A> {
    ghost use Rattle.cmdlist.specs.Recorder.{OnlyLength, is_kept_alone};

    /// A context that has recorded nothing.
    pub fn new(alloc: A) -> Self
        ensures { result ≡ [] }
    {
        DeferredContext {
            commands: Vec::new(alloc),
            settings: Settings::new(),
            triangles: 0,
            queries: Queries::none(),
        }
    }

    /// Whether a query is open.
    fn is_open(&self, query: u32) -> bool
        ensures { result ≡ is_among query (queries_open self.now) }
    {
        self.queries.opened.contains(&query)
    }

    /// Whether some query is open.
    pub fn has_open_queries(&self) -> bool
        ensures { result ≡ some_open (queries_open self.now) }
    {
        !self.queries.opened.is_empty()
    }

    /// Whether the list has begun a query.
    pub fn has_begun(&self, query: u32) -> bool
        ensures { result ≡ is_among query (issues self.now) }
    {
        is_marked(&self.queries.begun, query)
    }

    /// Whether the list has begun the query of a predicate.
    fn is_predicate_begun(&self, predicate: Option<(u32, bool)>) -> bool
        ensures { result ≡ is_begun_predicate self.now predicate }
    {
        match predicate {
            Some((query, _)) => self.has_begun(query),
            None => false,
        }
    }

    /// Whether a command of the list, the kept state's included, sets a predicate by a query.
    fn is_named(&self, query: u32) -> bool
        ensures { result ≡ is_among query (queries_named self.now) }
    {
        is_marked(&self.queries.named, query)
    }

    /// Whether the list has all the issues that a list may have.
    fn has_all_issues(&self) -> bool
        ensures { result ≡ nat_le ISSUE_LIMIT (length (issues self.now)) }
    {
        self.queries.issues >= ISSUE_LIMIT
    }

    /// Whether vertices may be set, whatever the length of the list. Refused with VertexCount, VertexRange.
    fn examine_vertices(&self, vertices: &[Vertex]) -> Result<(), GfxError>
        ensures ok { OnOk result (OnlyLength self.now (SetVertices vertices.now) 0) }
        ensures err { IfErr result (λ e. first_row (list_rows self.now (SetVertices vertices.now)) ≡ Some e) }
    {
        if vertices.len() > BUFFER_LIMIT {
            return Err(GfxError::VertexCount);
        }
        if !are_in_range(vertices) {
            return Err(GfxError::VertexRange);
        }
        Ok(())
    }

    /// Whether indices may be set, whatever the length of the list. Refused with VertexCount.
    fn examine_indices(&self, indices: &[u16]) -> Result<(), GfxError>
        ensures ok { OnOk result (OnlyLength self.now (SetIndices indices.now) 0) }
        ensures err { IfErr result (λ e. first_row (list_rows self.now (SetIndices indices.now)) ≡ Some e) }
    {
        if indices.len() > BUFFER_LIMIT {
            return Err(GfxError::VertexCount);
        }
        Ok(())
    }

    /// Looks at each row of a command but that on the length of the list.
    fn examine_but_length(&self, command: &Command<A>) -> Result<(), GfxError>
        requires { is_drawing (command_value command.now) ≡ false }
        ensures ok { OnOk result (OnlyLength self.now (command_value command.now) 0) }
        ensures err { OnErr result (AnswersBy (list_rows self.now (command_value command.now)) result) }
    {
        match command {
            Command::SetVertices(vertices) => self.examine_vertices(vertices.as_slice()),
            Command::SetIndices(indices) => self.examine_indices(indices.as_slice()),
            Command::SetScissor(scissor) if is_scissor_bad(*scissor) => Err(GfxError::ScissorRect),
            Command::SetPredication(predicate) if is_predicate_bad(*predicate) => {
                Err(GfxError::QueryNumber)
            }
            Command::SetPredication(predicate) if self.is_predicate_begun(*predicate) => {
                Err(GfxError::PredicateInList)
            }
            Command::Begin(query) if *query >= QUERY_LIMIT => Err(GfxError::QueryNumber),
            Command::Begin(query) if self.is_open(*query) => Err(GfxError::QueryOpen),
            Command::Begin(query) if self.is_named(*query) => Err(GfxError::PredicateInList),
            Command::Begin(_) if self.has_all_issues() => Err(GfxError::TooManyIssues),
            Command::End(query) if *query >= QUERY_LIMIT => Err(GfxError::QueryNumber),
            Command::End(query) if !self.is_open(*query) => Err(GfxError::QueryNotOpen),
            Command::Kept(_) => Err(GfxError::OutOfMemory),
            _ => Ok(()),
        }
    }

    /// Whether the list has room for one more command that draws so many triangles. Refused with ListTooLong.
    fn examine_length(&self, triangles: u32) -> Result<(), GfxError>
        ensures ok { OnOk result ((too_long self.now triangles).1 ≡ false) }
        ensures err { IfErr result (λ e. ((too_long self.now triangles).1 ≡ true) × (e ≡ ListTooLong)) }
    {
        if self.commands.len() >= LIST_LIMIT as usize || triangles > LIST_LIMIT - self.triangles {
            return Err(GfxError::ListTooLong);
        }
        Ok(())
    }

    /// Looks at each row of a command that neither draws nor clears.
    fn examine(&self, command: &Command<A>) -> Result<(), GfxError>
        requires { is_drawing (command_value command.now) ≡ false }
        ensures answer { AnswersBy (list_rows self.now (command_value command.now)) result }
        ensures only { OnOk result (OnlyLength self.now (command_value command.now) 0) }
        ensures room { OnOk result ((too_long self.now 0).1 ≡ false) }
    {
        self.examine_but_length(command)?;
        self.examine_length(0)
    }

    /// Appends a command that no row refuses, and that draws no triangle.
    fn append(&mut self, command: Command<A>) -> Result<(), GfxError>
        requires only { OnlyLength self.old (command_value command) 0 }
        requires room { (too_long self.old 0).1 ≡ false }
        ensures ok { OnOk result (self.new ≡ self.old ++ command_value command ∷ []) }
        ensures memory { IfErr result (λ e. e ≡ GfxError.OutOfMemory) }
        ensures err { OnErr result (self.new ≡ self.old) }
    {
        self.commands.try_reserve(1)?;
        self.settings.change(&command)?;
        self.queries.note(&command);
        self.commands.push(command).unwrap();
        Ok(())
    }

    /// Appends a draw or a clear, which changes no setting and no query. Refused with ListTooLong, OutOfMemory.
    fn append_drawing(&mut self, command: Command<A>, triangles: u32) -> Result<(), GfxError>
        requires drawing { is_drawing (command_value command) ≡ true }
        requires only { OnlyLength self.old (command_value command) triangles }
        ensures answer { AnswersBy (list_rows self.old (command_value command)) result }
        ensures ok { OnOk result (self.new ≡ self.old ++ command_value command ∷ []) }
        ensures err { OnErr result (self.new ≡ self.old) }
    {
        self.examine_length(triangles)?;
        self.commands.push(command)?;
        self.triangles += triangles;
        Ok(())
    }

    /// The list that was recorded. The next one begins with the kept state, as one command, if `restore` says so, and else
    /// with nothing. Refused with QueryLeftOpen, OutOfMemory.
    pub fn finish(&mut self, restore: bool) -> Result<CommandList<A>, GfxError>
        ensures answer { AnswersBy (finish_rows self.old) result }
        ensures list { IfOk result (λ list. list ≡ self.old) }
        ensures next { OnOk result (self.new ≡ after_finish restore self.old) }
        ensures err { OnErr result (self.new ≡ self.old) }
    {
        if self.has_open_queries() {
            return Err(GfxError::QueryLeftOpen);
        }
        let next = self.next(restore)?;
        let done = mem::replace(self, next);
        Ok(done.into_list())
    }

    /// The commands of the list so far, each accepted behind those before it.
    pub fn commands(&self) -> &[Command<A>]
        ensures commands { map command_value result.now ≡ self.now }
        ensures accepted { AreAccepted self.now }
    {
        self.commands.as_slice()
    }

    /// These commands, lent with what was counted of them.
    pub fn recorded(&self) -> Commands<'_, A>
        ensures { result ≡ self.now }
    {
        Commands {
            commands: self.commands.as_slice(),
            triangles: self.triangles,
            issues: self.queries.issues,
        }
    }

    /// Whether the list holds the kept state alone. A finish that keeps the state then begins the same list again.
    pub fn is_kept_state_alone(&self) -> bool
        ensures value { result ≡ is_kept_alone self.now }
        ensures same { IsTrue result → after_finish true self.now ≡ self.now }
    {
        matches!(self.commands.as_slice(), [Command::Kept(_)])
    }

    /// The context for the list behind this one, as a finish makes it. Refused with OutOfMemory alone.
    pub fn next(&self, restore: bool) -> Result<Self, GfxError>
        ensures next { IfOk result (λ next. next ≡ after_finish restore self.now) }
        ensures memory { IfErr result (λ e. e ≡ GfxError.OutOfMemory) }
    {
        let alloc = *self.commands.allocator();
        if !restore {
            return Ok(DeferredContext::new(alloc));
        }
        DeferredContext::with_settings(alloc, &self.settings)
    }

    /// The recorded commands as a list, where no query is open.
    fn into_list(self) -> CommandList<A>
        requires { queries_open self ≡ [] }
        ensures { result ≡ self }
    {
        CommandList {
            commands: self.commands,
            triangles: self.triangles,
            issues: self.queries.issues,
        }
    }

    /// A context whose list begins with kept settings.
    fn with_settings(alloc: A, settings: &Settings<A>) -> Result<Self, GfxError>
        requires { AreSound (settings_value settings.now) }
        ensures kept { IfOk result (λ context. context ≡ Kept (settings_value settings.now) ∷ []) }
        ensures memory { IfErr result (λ e. e ≡ GfxError.OutOfMemory) }
    {
        let kept = Command::Kept(Box::new(alloc, settings.share()?)?);
        let mut queries = Queries::none();
        queries.note(&kept);
        let mut commands = Vec::new(alloc);
        commands.push(kept)?;
        Ok(DeferredContext {
            commands,
            settings: settings.share()?,
            triangles: 0,
            queries,
        })
    }
}

impl<A: Allocator + Copy> DeviceContext for DeferredContext<A> {
    ghost use Rattle.std.specs.Prelude.{◌++◌, ◌∷◌, [], refl};

    ghost recorded = { λ commands. commands };

    ghost with = { λ commands c. commands ++ c ∷ [] };

    type Alloc = A;

    fn record(&mut self, command: &Command<A>) -> Result<(), GfxError> {
        match command {
            Command::Draw(count, start) => {
                let triangles = drawn_triangles(&self.settings.state(), *count, *start)?;
                self.append_drawing(Command::Draw(*count, *start), triangles)
            }
            Command::DrawIndexed(count, start, base) => {
                let state = self.settings.state();
                let triangles = drawn_indexed_triangles(&state, *count, *start, *base)?;
                self.append_drawing(Command::DrawIndexed(*count, *start, *base), triangles)
            }
            Command::ClearColor(rgba) => self.append_drawing(Command::ClearColor(*rgba), 0),
            Command::ClearDepthStencil(depth, _) if *depth > DEPTH_MAX => {
                Err(GfxError::VertexRange)
            }
            Command::ClearDepthStencil(depth, stencil) => {
                self.append_drawing(Command::ClearDepthStencil(*depth, *stencil), 0)
            }
            _ => {
                self.examine(command)?;
                let command = command.share(*self.commands.allocator())?;
                self.append(command)
            }
        }
    }

    fn ia_set_vertices(&mut self, vertices: &[Vertex]) -> Result<(), GfxError> {
        self.examine_vertices(vertices)?;
        self.examine_length(0)?;
        let vertices = Buffer::from_slice(*self.commands.allocator(), vertices)?;
        self.append(Command::SetVertices(vertices))
    }

    fn ia_set_indices(&mut self, indices: &[u16]) -> Result<(), GfxError> {
        self.examine_indices(indices)?;
        self.examine_length(0)?;
        let indices = Buffer::from_slice(*self.commands.allocator(), indices)?;
        self.append(Command::SetIndices(indices))
    }

    ghost appends = { λ commands c. refl };
}
