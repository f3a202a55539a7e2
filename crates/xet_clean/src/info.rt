//! What cleaning returns.

ghost use Rattle.std.specs.Prelude.{◌≡◌, ◌++◌, IsOkUnless, OnOk};
ghost use Rattle.xet_clean.specs.internal.Sums.{HasRoom};
ghost use Rattle.xet_dedup.specs.Deduping.{metrics_of_both};

use crate::metrics::add_metrics;
use xet_base::Items;
use xet_dedup::{Choice, DeduplicationMetrics};
use xet_hash::StoreError;
use xet_store_disk::XetFileInfo;

/// The result of cleaning.
#[derive(Debug, Drop)]
pub struct Cleaned {
    /// The pointer record of each source, in order.
    pub infos: Vec<XetFileInfo>,
    /// For each source, why each of its chunks was stored or found.
    pub choices: Vec<Items<Choice>>,
    /// What deduplication did with the chunks of all sources.
    pub metrics: DeduplicationMetrics,
}

impl Cleaned {
    /// Adds the result for further sources. The caller ensures that the sums of the metrics have room. The only error is
    /// `OutOfMemory`.
    pub(crate) fn add(&mut self, more: Cleaned) -> Result<(), StoreError>
        requires room { HasRoom self.old.metrics more.metrics }
        ensures infos { OnOk result (self.new.infos.items ≡ self.old.infos.items ++ more.infos.items) }
        ensures choices { OnOk result (self.new.choices.items ≡ self.old.choices.items ++ more.choices.items) }
        ensures metrics { OnOk result (self.new.metrics ≡ metrics_of_both self.old.metrics more.metrics) }
        ensures memory { IsOkUnless result StoreError.OutOfMemory }
    {
        let Cleaned {
            mut infos,
            mut choices,
            metrics,
        } = more;
        self.infos.append(&mut infos)?;
        self.choices.append(&mut choices)?;
        add_metrics(&mut self.metrics, &metrics);
        Ok(())
    }
}
