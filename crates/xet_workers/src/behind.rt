//! `Behind`: the SHA-256 of a file with large blocks is computed on a thread of its own, if one can be started, some blocks behind
//! the chunks.

ghost use Rattle.std.specs.Prelude.{◌≡◌, ◌++◌, [], ◌∷◌, ℕ, IfErr, IfOk, List, None, false, true};
ghost use Rattle.std.specs.List.{concat};
ghost use Rattle.xet_clean.specs.Policies.{HasBytes};
ghost use Rattle.xet_workers.specs.internal.Behind.{HasBefore, HasBehind};

use bytes::Bytes;
use std::alloc::{AllocError, Global};
use std::mem;
use std::snapshot::Snapshot;
use std::sync::Arc;
use std::sync::atomic::{AtomicBool, Ordering};
use std::thread::{Promise, PromisedHandle, Threads, spawn_with};
use xet_clean::{FileDigest, Sha256Generator};
use xet_shard_format::Sha256;

/// The minimum length of a block for which a thread is started, in bytes. A smaller one, whose SHA-256 takes 0.3 ms at most, is
/// not worth it.
const MIN_THREAD_BYTES: usize = 64 * 1024;

/// Computes the SHA-256 of files on a thread of its own, if one can be started, while the caller goes on: blocks that come
/// meanwhile wait, up to a maximum, and the next thread takes them together. So the caller may be ahead by some blocks, and a block
/// with which a xorb is written holds up neither.
pub struct Behind<'a, T: Threads> {
    rt: &'a T,
    alloc: Global,
    /// It was given the bytes before those that wait, if no thread is at work.
    generator: Sha256Generator,
    running: Option<Running>,
    /// The last blocks of the file, in order, which no thread has.
    waiting: Vec<Bytes>,
    /// With so many blocks that wait the caller waits for the thread at work.
    most: usize,
}

/// A thread at work.
#[derive(Drop)]
pub struct Running {
    /// It returns the generator.
    pub handle: PromisedHandle<Sha256Generator, Given>,
    /// Whether it is done, as far as is known: nothing is claimed of it.
    is_done: Arc<AtomicBool, Global>,
}

/// A generator was given blocks.
#[derive(Drop)]
pub struct Given {
    /// The generator before.
    pub was: Snapshot<Sha256Generator>,
    /// The blocks.
    pub blocks: Snapshot<Vec<Bytes>>,
}

impl Promise<Sha256Generator> for Given {
    ghost use Rattle.std.specs.Prelude.{◌++◌, ℕ, List};
    ghost use Rattle.std.specs.List.{concat};
    ghost use Rattle.xet_clean.specs.Policies.{HasBytes};

    ghost kept_by = { λ given now. (before : List ℕ) → HasBytes given.was.value before → HasBytes now (before ++ concat given.blocks.value.items) };
}

impl<'a, T: Threads> Drop for Behind<'a, T> {
    /// Waits for the thread at work.
    fn drop(self) {
        let Behind {
            rt,
            alloc: _,
            generator: _,
            running,
            waiting: _,
            most: _,
        } = self;
        if let Some(running) = running {
            let _ = running.handle.join(rt);
        }
    }
}

impl<'a, T: Threads> FileDigest for Behind<'a, T> {
    ghost use Rattle.xet_workers.specs.internal.Behind.{HasBehind};

    ghost has = { λ d bytes. HasBehind d.generator d.running d.waiting.items bytes };

    fn begin(&mut self) {
        self.wait();
        self.waiting.clear();
        self.generator = Sha256Generator::new();
    }

    fn add(&mut self, block: &Bytes) {
        if self.keep(block) {
            if self.may_start() {
                self.wait();
                self.start();
            }
        } else {
            self.catch_up();
            self.generator.update(block.as_slice());
        }
    }

    fn end(&mut self) -> Sha256 {
        self.catch_up();
        mem::replace(&mut self.generator, Sha256Generator::new()).finalize()
    }
}

impl<'a, T: Threads> Behind<'a, T> {
    /// No file has begun. Threads are started by this runtime. At most so many blocks wait, and the thread at work has at most
    /// as many.
    pub fn new(rt: &'a T, alloc: Global, most: usize) -> Behind<'a, T>
        ensures { HasBehind result.generator result.running result.waiting.items [] }
    {
        Behind {
            rt,
            alloc,
            generator: Sha256Generator::new(),
            running: None,
            waiting: Vec::new(alloc),
            most,
        }
    }

    /// Lets a block wait, which shares its buffer, and returns `true`; or `false` if it is not worth it, or memory is out.
    fn keep(&mut self, block: &Bytes) -> bool
        ensures waits { result ≡ true → self.new.waiting.items ≡ self.old.waiting.items ++ block.now ∷ [] }
        ensures none { result ≡ false → self.new.waiting.items ≡ self.old.waiting.items }
        ensures same { (self.new.generator ≡ self.old.generator) × (self.new.running ≡ self.old.running) }
    {
        if block.len() < MIN_THREAD_BYTES {
            return false;
        }
        match block.clone() {
            Ok(copy) => self.waiting.push(copy).is_ok(),
            Err(_) => false,
        }
    }

    /// Whether a thread is to be started with what waits: none is at work any more, or it is as far behind as it may be.
    fn may_start(&self) -> bool {
        let is_idle = match &self.running {
            Some(running) => running.is_done.load(Ordering::SeqCst),
            None => true,
        };
        is_idle || self.waiting.len() >= self.most
    }

    /// Waits for the thread at work.
    fn wait(&mut self)
        ensures none { self.new.running ≡ None }
        ensures has { (before : List ℕ) → HasBefore self.old.generator self.old.running before → HasBytes self.new.generator before }
        ensures same { self.new.waiting ≡ self.old.waiting }
    {
        if let Some(running) = self.running.take() {
            self.generator = running.handle.join(self.rt);
        }
    }

    /// Takes all that waits into the generator, on the calling thread, once the thread at work is done.
    fn catch_up(&mut self)
        ensures none { (self.new.running ≡ None) × (self.new.waiting.items ≡ []) }
        ensures has { (bytes : List ℕ) → HasBehind self.old.generator self.old.running self.old.waiting.items bytes → HasBytes self.new.generator bytes }
    {
        self.wait();
        let blocks = mem::replace(&mut self.waiting, Vec::new(self.alloc));
        let generator = mem::replace(&mut self.generator, Sha256Generator::new());
        self.generator = hash_all(generator, &blocks);
    }

    /// Gives what waits to a new thread. It is done on the calling one if none can be started.
    fn start(&mut self)
        requires { self.old.running ≡ None }
        ensures { (bytes : List ℕ) → HasBehind self.old.generator self.old.running self.old.waiting.items bytes → HasBehind self.new.generator self.new.running self.new.waiting.items bytes }
    {
        let blocks = mem::replace(&mut self.waiting, Vec::new(self.alloc));
        let generator = mem::replace(&mut self.generator, Sha256Generator::new());
        match started(self.rt, self.alloc, generator, blocks) {
            Ok(running) => self.running = Some(running),
            Err(generator) => self.generator = generator,
        }
    }
}

/// Starts a thread that gives blocks to a generator. If none can be started they are given to it here.
fn started<T: Threads>(
    rt: &T,
    alloc: Global,
    generator: Sha256Generator,
    blocks: Vec<Bytes>,
) -> Result<Running, Sha256Generator>
    ensures given { IfOk result (λ r. (r.handle.promise.was.value ≡ generator) × (r.handle.promise.blocks.value ≡ blocks)) }
    ensures done { IfErr result (λ now. (before : List ℕ) → HasBytes generator before → HasBytes now (before ++ concat blocks.items)) }
{
    let Ok((is_done, flag)) = flags(alloc) else {
        return Err(hash_all(generator, &blocks));
    };
    let given = Given {
        was: Snapshot::of(&generator),
        blocks: Snapshot::of(&blocks),
    };
    let hash = move || -> Sha256Generator
        ensures { (before : List ℕ) → HasBytes generator before → HasBytes result (before ++ concat blocks.items) }
    {
        let generator = hash_all(generator, &blocks);
        flag.store(true, Ordering::SeqCst);
        generator
    };
    match spawn_with(rt, given, hash) {
        Ok(handle) => Ok(Running { handle, is_done }),
        Err(refused) => Err((refused.value)()),
    }
}

/// A flag that is not set, for two threads.
fn flags(alloc: Global) -> Result<(Arc<AtomicBool, Global>, Arc<AtomicBool, Global>), AllocError> {
    let flag = Arc::new(alloc, AtomicBool::new(false))?;
    let other = Arc::try_clone(&flag)?;
    Ok((flag, other))
}

/// The generator, after it was given these blocks.
fn hash_all(generator: Sha256Generator, blocks: &[Bytes]) -> Sha256Generator
    ensures { (before : List ℕ) → HasBytes generator before → HasBytes result (before ++ concat blocks.now) }
{
    let mut generator = generator;
    for block in blocks {
        generator.update(block.as_slice());
    }
    generator
}
