//! Reads.
ghost use Rattle.std.specs.Prelude.{◌≡◌, IfOk, IfSome, Ok, false, map, option_map};
ghost use Rattle.host_replies.specs.Bodies.{answer_of};
ghost use Rattle.world_read.specs.Reads.{Begins, GoesOnWith, IsBegun, IsNext, IsStage, answer_in, wanted, wanted_at};
ghost use Rattle.world_read.specs.Requests.{file_asked};
ghost use Rattle.world_read.specs.Stages.{content_of, stage_of};

use crate::gathered::Gathered;
use crate::requests::FileRequest;
use byte_view::{BlobInfo, Chunk};
use chunk_reads::ReadFault;
use host_names::Digest;
use host_replies::{Reply, file_type};
use range_reply::read_body;
use site_state::State;
use std::alloc::{AllocError, Global};
use std::marker::Model;
use std::sync::Arc;

/// How far a read has come.
#[derive(Drop)]
pub enum Stage {
    /// It waits for the chunk of this name.
    Waits(Digest),
    /// It is answered.
    Answered(Reply),
    /// It has failed.
    Failed,
}

/// The reading of a file: the chunks that it has taken so far, in order, and how far it has come with them.
#[derive(Drop)]
pub struct Reading {
    info: Arc<BlobInfo>,
    chunks: Vec<Arc<Chunk>>,
    stage: Stage,
}

impl Model for Reading {
    ghost use Rattle.std.specs.Prelude.{map};
    ghost use Rattle.world_read.specs.Reads.{FileReading};
    ghost use Rattle.world_read.specs.Stages.{IsSentStage, stage_of};

    ghost Value = { FileReading };

    ghost view = { λ r. record { file = r.info.value; chunks = map (λ chunk. chunk.value) r.chunks.items; stage = stage_of r.stage } };

    ghost invariant = { λ r. IsSentStage (stage_of r.stage) };
}

/// A read: what was asked for, the number of the look among those of its visitor, and the file, or the reply if there is none.
#[derive(Drop)]
pub struct FileRead {
    request: Arc<FileRequest>,
    look: usize,
    content: Result<Reading, Reply>,
}

impl Model for FileRead {
    ghost use Rattle.world_read.specs.Reads.{ReadState};
    ghost use Rattle.world_read.specs.Stages.{IsSent, content_of};

    ghost Value = { ReadState };

    ghost view = { λ r. record { request = r.request.value; look = r.look; content = content_of r.content } };

    ghost invariant = { λ r. IsSent (content_of r.content) };
}

/// How far a read comes with these chunks.
fn stage_with(
    alloc: Global,
    request: &FileRequest,
    info: &Arc<BlobInfo>,
    chunks: &[Arc<Chunk>],
) -> Result<Stage, AllocError>
    ensures { IfOk result (λ stage.
        IsStage request.now info.now.value (map (λ chunk. chunk.value) chunks.now) (stage_of stage)) }
{
    let mut gathered = Gathered {
        alloc,
        left: chunks,
        missed: None,
    };
    let plan = request.plan(info);
    let content_type = file_type(&request.path);
    match read_body(alloc, &mut gathered, info, &plan, content_type) {
        Ok(body) => Ok(Stage::Answered(Reply::of_file(content_type, info, body))),
        Err(ReadFault::OutOfMemory) => Err(AllocError),
        Err(_) => match gathered.missed {
            Some(name) => Ok(Stage::Waits(name)),
            None => Ok(Stage::Failed),
        },
    }
}

/// Shares of these chunks.
fn shares(alloc: Global, chunks: &[Arc<Chunk>]) -> Result<Vec<Arc<Chunk>>, AllocError>
    ensures { IfOk result (λ all. map (λ chunk. chunk.value) all.items ≡ map (λ chunk. chunk.value) chunks.now) }
{
    let mut all = Vec::new(alloc);
    for chunk in chunks {
        all.push(Arc::try_clone(chunk)?)?;
    }
    Ok(all)
}

impl Reading {
    /// It reads a file, of which it has no chunk yet.
    fn begin(
        alloc: Global,
        request: &FileRequest,
        info: &Arc<BlobInfo>,
    ) -> Result<Reading, AllocError>
        ensures { IfOk result (λ reading. Begins request.now (Ok info.now.value) (Ok reading)) }
    {
        let stage = stage_with(alloc, request, info, &[])?;
        Ok(Reading {
            info: Arc::try_clone(info)?,
            chunks: Vec::new(alloc),
            stage,
        })
    }

    /// What it is with one chunk more, or a fault.
    fn next(
        &self,
        alloc: Global,
        request: &FileRequest,
        taken: Option<Arc<Chunk>>,
    ) -> Result<Reading, AllocError>
        ensures { IfOk result (λ next.
            GoesOnWith request.now self.now (option_map (λ chunk. chunk.value) taken) next) }
    {
        let info = Arc::try_clone(&self.info)?;
        let mut chunks = shares(alloc, self.chunks.as_slice())?;
        let Some(chunk) = taken else {
            return Ok(Reading {
                info,
                chunks,
                stage: Stage::Failed,
            });
        };
        chunks.push(chunk)?;
        let stage = stage_with(alloc, request, &info, chunks.as_slice())?;
        Ok(Reading {
            info,
            chunks,
            stage,
        })
    }

    /// The name of the chunk that it waits for.
    pub fn wants(&self) -> Option<Digest>
        ensures { result ≡ wanted_at self.now.stage }
    {
        match &self.stage {
            Stage::Waits(name) => Some(*name),
            _ => None,
        }
    }
}

/// The reading of the file that is asked for, which has no chunk yet; or the reply if there is no file.
fn begun(
    alloc: Global,
    request: &FileRequest,
    state: &State,
) -> Result<Result<Reading, Reply>, AllocError>
    ensures { IfOk result (λ content. Begins request.now (file_asked state.now request.now) (content_of content)) }
{
    match request.file(state) {
        Ok(file) => Ok(Ok(Reading::begin(alloc, request, file.info())?)),
        Err(reason) => Ok(Err(Reply::plain(reason))),
    }
}

impl FileRead {
    /// A read that begins with this look, in the state that the look's log gives.
    pub fn begin(
        alloc: Global,
        request: &Arc<FileRequest>,
        look: usize,
        state: &State,
    ) -> Result<FileRead, AllocError>
        ensures { IfOk result (λ read. IsBegun request.now.value look state.now read) }
    {
        Ok(FileRead {
            request: Arc::try_clone(request)?,
            look,
            content: begun(alloc, request, state)?,
        })
    }

    /// What was asked for.
    pub fn request(&self) -> &FileRequest
        ensures { result.now ≡ self.now.request }
    {
        &self.request
    }

    /// The place of its look among those of its visitor, from 0 on.
    pub fn look(&self) -> usize
        ensures { result ≡ self.now.look }
    {
        self.look
    }

    /// The name of the chunk that it waits for, if it waits.
    pub fn wants(&self) -> Option<Digest>
        ensures { result ≡ wanted self.now.content }
    {
        match &self.content {
            Ok(reading) => reading.wants(),
            Err(_) => None,
        }
    }

    /// Its reply, if it is answered. The reply's body is ready to be sent.
    pub fn reply(&self) -> Option<&Reply>
        ensures value { option_map (λ reply. answer_of reply.now) result ≡ answer_in self.now.content }
        ensures sent { IfSome result (λ reply. (answer_of reply.now).withheld ≡ false) }
    {
        match &self.content {
            Ok(reading) => match &reading.stage {
                Stage::Answered(reply) => Some(reply),
                _ => None,
            },
            Err(reply) => Some(reply),
        }
    }

    /// What its reading becomes with one chunk more, or with a fault, if it waits for a chunk.
    pub fn next(
        &self,
        alloc: Global,
        taken: Option<Arc<Chunk>>,
    ) -> Result<Option<Reading>, AllocError>
        ensures { IfOk result (λ next.
            IsNext self.now.request self.now.content (option_map (λ chunk. chunk.value) taken) next) }
    {
        match &self.content {
            Ok(reading) if reading.wants().is_some() => {
                Ok(Some(reading.next(alloc, &self.request, taken)?))
            }
            _ => Ok(None),
        }
    }

    /// It goes on with this reading.
    pub fn go_on(&mut self, reading: Reading)
        ensures { self.new ≡ record self.old { content = Ok reading } }
    {
        self.content = Ok(reading);
    }
}
