//! The page of metrics.
ghost use Rattle.std.specs.Prelude.{◌≡◌, IfOk, map};
ghost use Rattle.mc_telemetry.specs.Names.{IsPageOf, metric_of, metrics};

use crate::metrics::METRICS;
use mc_metrics::{Family, PageValues, page_of};
use std::alloc::{AllocError, Global};

/// Returns the page of metrics with a reading: the rows of [`METRICS`], in their order.
///
/// The one error is a refused allocation.
pub fn metrics_page(alloc: Global, reading: &PageValues) -> Result<Vec<u8>, AllocError>
    ensures { IfOk result (λ page. IsPageOf metrics reading.now page.items) }
{
    let families = all_families();
    page_of(alloc, &families, reading)
}

/// Returns the rows of [`METRICS`].
fn all_families() -> [Family; METRICS.len()]
    ensures { map metric_of result ≡ metrics }
{
    METRICS
}
