//! `Working`: the files of sources are cleaned in turn, with one open aggregate.

ghost use Rattle.std.specs.Prelude.{◌≡◌, ◌≤◌, ◌+◌, ◌*◌, ◌++◌, ◌∷◌, [], ℕ, List, IfErr, IfOk, IsOkUnless, OnOk, length, map, vec_capacity, vec_len};
ghost use Rattle.xet_aggregate.specs.Aggregate.{IsAggregate, empty};
ghost use Rattle.xet_aggregate.specs.Metrics.{zeros};
ghost use Rattle.xet_clean.specs.Planning.{IsWithin};
ghost use Rattle.xet_store.specs.Holders.{Follows, Holder};
ghost use Rattle.xet_clean.specs.Closing.{Closes, HaveForm, IsAtMost, IsUnclosed, Joins, RegistersAtMost, RegistersFull};
ghost use Rattle.xet_clean.specs.internal.Sums.{HasRoom};
ghost use Rattle.xet_clean.specs.Working.{IsAdded, IsWorking, Planned};
ghost use Rattle.xet_cut.specs.Limits.{AreInRange};
ghost use Rattle.xet_dedup.specs.Deduping.{metrics_of_both};
ghost use Rattle.xet_file_plan.specs.Moves.{PlanState};
ghost use Rattle.xet_xorb_chunk.specs.Chunks.{chunk_leaf};

use crate::aggregate::close;
use crate::cleaner::FinishedFile;
use crate::info::Cleaned;
use crate::metrics::add_metrics;
use crate::policy::Sha256Policy;
use std::alloc::Global;
use std::mem;
use xet_dedup::{DataAggregator, DeduplicationMetrics};
use xet_hash::StoreError;
use xet_store::Stepping;
use xet_xorb_chunk::chunk_leaves;

/// What was made of the sources so far.
#[derive(Drop)]
pub struct Working {
    alloc: Global,
    /// What cleaning returns of them.
    pub cleaned: Cleaned,
    /// The chunks that are in no xorb yet, and the files that wait for them.
    pub aggregate: DataAggregator,
}

impl Working {
    /// Nothing yet, with room for so many sources. The only error is `OutOfMemory`.
    pub fn new(alloc: Global, count: usize) -> Result<Working, StoreError>
        ensures new { IfOk result (λ w. (w.cleaned.infos.items ≡ []) × (w.cleaned.choices.items ≡ []) × (w.cleaned.metrics ≡ zeros) × (w.aggregate ≡ empty)) }
        ensures room { IfOk result (λ w. (count ≤ vec_capacity w.cleaned.infos) × (count ≤ vec_capacity w.cleaned.choices)) }
        ensures memory { IsOkUnless result StoreError.OutOfMemory }
    {
        Ok(Working {
            alloc,
            cleaned: Cleaned {
                infos: Vec::with_capacity(alloc, count)?,
                choices: Vec::with_capacity(alloc, count)?,
                metrics: DeduplicationMetrics::default(),
            },
            aggregate: DataAggregator::default(alloc),
        })
    }

    /// Adds a file that was cleaned. Its last chunks join the aggregate; if they do not fit, the aggregate is closed first.
    pub fn add<S: Stepping>(&mut self, steps: &mut S, file: FinishedFile) -> Result<(), StoreError>
        requires working { (start first : Holder) × (files : List Planned) × (policy : Sha256Policy) × (bytes : List ℕ) × (id : ℕ) × IsAdded start first (S.holder steps.old) files policy bytes id self.old.cleaned.infos.items self.old.cleaned.choices.items self.old.cleaned.metrics self.old.aggregate file.info file.metrics file.choices file.rest }
        requires room { (vec_len self.old.cleaned.infos + 1 ≤ vec_capacity self.old.cleaned.infos) × (vec_len self.old.cleaned.choices + 1 ≤ vec_capacity self.old.cleaned.choices) }
        ensures working { (start first : Holder) (files : List Planned) (policy : Sha256Policy) (bytes : List ℕ) (id : ℕ) → IsAdded start first (S.holder steps.old) files policy bytes id self.old.cleaned.infos.items self.old.cleaned.choices.items self.old.cleaned.metrics self.old.aggregate file.info file.metrics file.choices file.rest
            → OnOk result ((plan : PlanState) × IsWorking start (S.holder steps.new) (files ++ (record { bytes = bytes; policy = policy; plan = plan }) ∷ []) self.new.cleaned.infos.items self.new.cleaned.choices.items self.new.cleaned.metrics self.new.aggregate) }
        ensures room { (vec_capacity self.new.cleaned.infos ≡ vec_capacity self.old.cleaned.infos) × (vec_capacity self.new.cleaned.choices ≡ vec_capacity self.old.cleaned.choices) }
        ensures grown { OnOk result ((vec_len self.new.cleaned.infos ≡ vec_len self.old.cleaned.infos + 1) × (vec_len self.new.cleaned.choices ≡ vec_len self.old.cleaned.choices + 1)) }
        ensures follows { Follows (S.holder steps.old) (S.holder steps.new) }
        ensures few { IsAtMost (2 * length self.old.aggregate.chunks + 2 * length self.old.aggregate.files) (S.holder steps.old) (S.holder steps.new) }
        ensures refused { IfErr result (IsUnclosed (RegistersFull self.old.aggregate (map chunk_leaf file.rest.chunks)) self.old.aggregate (map chunk_leaf file.rest.chunks) (S.holder steps.old) (S.holder steps.new)) }
    {
        let FinishedFile {
            info,
            metrics,
            choices,
            rest,
        } = file;
        if info.file_size > 0 {
            self.join(steps, rest)?;
        }
        add_metrics(&mut self.cleaned.metrics, &metrics);
        self.cleaned.infos.push_reserved(info);
        self.cleaned.choices.push_reserved(choices);
        Ok(())
    }

    /// Adds what was made of a further part of the sources. What is left of that part joins the aggregate, which is closed first
    /// if it does not fit.
    pub(crate) fn merge<S: Stepping>(
        &mut self,
        steps: &mut S,
        part: Working,
    ) -> Result<(), StoreError>
        requires here { IsAggregate self.old.aggregate × IsWithin (S.holder steps.old).limits self.old.aggregate.chunks × HaveForm self.old.aggregate.files }
        requires rest { IsAggregate part.aggregate × IsWithin (S.holder steps.old).limits part.aggregate.chunks × HaveForm part.aggregate.files }
        requires range { AreInRange (S.holder steps.old).limits }
        requires room { HasRoom self.old.cleaned.metrics part.cleaned.metrics }
        ensures joined { OnOk result (Joins (S.holder steps.old) (S.holder steps.new) self.old.aggregate part.aggregate self.new.aggregate) }
        ensures infos { OnOk result (self.new.cleaned.infos.items ≡ self.old.cleaned.infos.items ++ part.cleaned.infos.items) }
        ensures choices { OnOk result (self.new.cleaned.choices.items ≡ self.old.cleaned.choices.items ++ part.cleaned.choices.items) }
        ensures metrics { OnOk result (self.new.cleaned.metrics ≡ metrics_of_both self.old.cleaned.metrics part.cleaned.metrics) }
        ensures follows { Follows (S.holder steps.old) (S.holder steps.new) }
        ensures few { IsAtMost (2 * length self.old.aggregate.chunks + 2 * length self.old.aggregate.files) (S.holder steps.old) (S.holder steps.new) }
        ensures refused { IfErr result (IsUnclosed (RegistersFull self.old.aggregate (map chunk_leaf part.aggregate.chunks)) self.old.aggregate (map chunk_leaf part.aggregate.chunks) (S.holder steps.old) (S.holder steps.new)) }
    {
        let Working {
            alloc: _,
            cleaned,
            aggregate,
        } = part;
        self.cleaned.add(cleaned)?;
        self.join(steps, aggregate)
    }

    /// Adds the last chunks of a file to the aggregate, which is closed first if they do not fit.
    fn join<S: Stepping>(&mut self, steps: &mut S, rest: DataAggregator) -> Result<(), StoreError>
        requires here { IsAggregate self.old.aggregate × IsWithin (S.holder steps.old).limits self.old.aggregate.chunks × HaveForm self.old.aggregate.files }
        requires rest { IsAggregate rest × IsWithin (S.holder steps.old).limits rest.chunks × HaveForm rest.files }
        requires range { AreInRange (S.holder steps.old).limits }
        ensures joined { OnOk result (Joins (S.holder steps.old) (S.holder steps.new) self.old.aggregate rest self.new.aggregate) }
        ensures same { self.new.cleaned ≡ self.old.cleaned }
        ensures follows { Follows (S.holder steps.old) (S.holder steps.new) }
        ensures few { IsAtMost (2 * length self.old.aggregate.chunks + 2 * length self.old.aggregate.files) (S.holder steps.old) (S.holder steps.new) }
        ensures refused { IfErr result (IsUnclosed (RegistersFull self.old.aggregate (map chunk_leaf rest.chunks)) self.old.aggregate (map chunk_leaf rest.chunks) (S.holder steps.old) (S.holder steps.new)) }
    {
        if !self.aggregate.fits(&rest, steps.limits()) {
            let next = chunk_leaves(self.alloc, rest.chunks())?;
            let full = self.take();
            close(steps, full, &next)?;
        }
        self.aggregate.merge_in(rest)
    }

    /// Takes the aggregate, which is empty then.
    fn take(&mut self) -> DataAggregator
        ensures taken { result ≡ self.old.aggregate }
        ensures empty { self.new ≡ record self.old { aggregate = empty } }
    {
        mem::replace(&mut self.aggregate, DataAggregator::default(self.alloc))
    }

    /// Closes the aggregate, and returns what cleaning returns.
    pub fn end<S: Stepping>(self, steps: &mut S) -> Result<Cleaned, StoreError>
        requires aggregate { IsAggregate self.aggregate × IsWithin (S.holder steps.old).limits self.aggregate.chunks × HaveForm self.aggregate.files }
        ensures closed { IfOk result (λ cleaned. (cleaned ≡ self.cleaned) × Closes self.aggregate [] (S.holder steps.old) (S.holder steps.new)) }
        ensures follows { Follows (S.holder steps.old) (S.holder steps.new) }
        ensures few { IsAtMost (2 * length self.aggregate.chunks + 2 * length self.aggregate.files) (S.holder steps.old) (S.holder steps.new) }
        ensures refused { IfErr result (IsUnclosed (RegistersAtMost self.aggregate []) self.aggregate [] (S.holder steps.old) (S.holder steps.new)) }
    {
        let Working {
            alloc: _,
            cleaned,
            aggregate,
        } = self;
        close(steps, aggregate, &[])?;
        Ok(cleaned)
    }
}
