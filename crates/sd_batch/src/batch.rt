ghost use Rattle.std.specs.Prelude.{◌≡◌, true, false, ◌<◌, [], length, IfOk, IsNone, IfSome, vec_len};
ghost use Rattle.sd_model_text.specs.Names.{shard};
ghost use Rattle.sd_model_text.specs.Lines.{Sample as ModelSample};
ghost use Rattle.sd_model_shard.specs.History.{part_of};
ghost use Rattle.sd_batch.specs.Batch.{Reads};

use crate::lists::{clear_lists, open_lists};
use crate::run::Run;
use sd_key::shard_of;
use sd_line::{Bad, Lines, Sample};
use std::alloc::{AllocError, Global};
use std::marker::Model;

/// Samples that wait to be submitted, in order, and for each shard the places of its own.
#[derive(Debug, Drop)]
pub struct Batch {
    shards: u16,
    waiting: usize,
    samples: Vec<Sample>,
    places: Vec<Vec<u16>>,
}

impl Model for Batch {
    ghost use Rattle.sd_batch.specs.Batch.{Waiting};

    ghost Value = { Waiting };

    ghost use Rattle.sd_batch.specs.Inside.{waiting_in, IsBatch};

    ghost view = { waiting_in };

    ghost invariant = { IsBatch };
}

// So many samples of no meaning.
fn open_samples(alloc: Global, room: u16) -> Result<Vec<Sample>, AllocError>
    ensures { IfOk result (λ samples. vec_len samples ≡ room) }
{
    let mut samples = Vec::with_capacity(alloc, usize::from(room))?;
    for _i in 0..room {
        samples.push_reserved(Sample::blank());
    }
    Ok(samples)
}

impl Batch {
    /// Room for so many samples of so many shards. Only this call takes memory.
    ///
    /// # Errors
    ///
    /// Where no memory is left for it.
    pub fn open(alloc: Global, shards: u16, room: u16) -> Result<Batch, AllocError>
        requires { 0 < shards }
        ensures { IfOk result (λ batch. batch ≡ record { shards = shards; room = room; items = [] }) }
    {
        Ok(Batch {
            shards,
            waiting: 0,
            samples: open_samples(alloc, room)?,
            places: open_lists(alloc, shards, room)?,
        })
    }

    /// Among how many shards the samples are spread.
    pub fn shards(&self) -> u16
        ensures { result ≡ self.now.shards }
    {
        self.shards
    }

    /// Whether there is no room for another sample.
    pub fn is_full(&self) -> bool
        ensures full { result ≡ true → length self.now.items ≡ self.now.room }
        ensures room { result ≡ false → length self.now.items < self.now.room }
    {
        self.waiting >= self.samples.len()
    }

    /// Reads the next piece. Its sample, where it is good, waits behind the others. None at the end.
    pub fn read(&mut self, lines: &mut Lines<'_>) -> Option<Result<(), Bad>>
        requires { length self.old.items < self.old.room }
        ensures end { IsNone result → (lines.old ≡ []) × (lines.new ≡ []) × (self.new ≡ self.old) }
        ensures next { IfSome result (λ answer. Reads lines.old lines.new self.old self.new answer) }
    {
        let sample = &mut self.samples[self.waiting];
        let piece = lines.next_into(sample)?;
        if piece.is_ok() {
            let home = shard_of(&sample.key, self.shards);
            self.places[usize::from(home)].push_reserved(self.waiting as u16);
            self.waiting += 1;
        }
        Some(piece)
    }

    /// The samples of a shard that wait, in order.
    pub fn run(&self, home: u16) -> Run<'_>
        requires { home < self.now.shards }
        ensures run { result ≡ part_of (λ (s : ModelSample). shard s.key self.now.shards) home self.now.items }
        ensures few { length result < 65536 }
    {
        Run::new(&self.samples, &self.places[usize::from(home)])
    }

    /// No sample waits any more.
    pub fn clear(&mut self)
        ensures { self.new ≡ record self.old { items = [] } }
    {
        self.waiting = 0;
        clear_lists(&mut self.places);
    }
}
