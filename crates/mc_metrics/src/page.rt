//! The page of metrics, in the text format 0.0.4 of Prometheus.
ghost use Rattle.std.specs.Prelude.{◌≡◌, ◌++◌, OnOk, IfOk};
ghost use Rattle.mc_metrics.specs.Pages.{head_text, sample_text, slab_text, kind_name, each_text};
ghost use Rattle.mc_metrics.specs.Pages.{slabs_text, refused_text, known_text, fraction_text};
ghost use Rattle.mc_metrics.specs.Pages.{decimals_line, hundredths_line, hundredths_text};
ghost use Rattle.mc_metrics.specs.Pages.{samples_text, family_text, families_text};
ghost use Rattle.mc_metrics.specs.Pages.{label_text, labels_text, numbers_text};

use crate::family::{Family, Kind, Samples};
use crate::reading::{Figure, PageValues, RefusedReading, SlabFigure, SlabReading};
use itoa::Buffer;
use std::alloc::{AllocError, Global};

/// The usual size of a page in bytes, for its first allocation.
const USUAL: usize = 8192;

/// Returns the page of these families, with a reading. The only error is a refused allocation.
pub fn page_of(
    alloc: Global,
    families: &[Family],
    reading: &PageValues,
) -> Result<Vec<u8>, AllocError>
    ensures { IfOk result (λ page. page.items ≡ families_text reading.now families.now) }
{
    let mut page = Vec::with_capacity(alloc, USUAL)?;
    put_families(&mut page, families, reading)?;
    Ok(page)
}

/// Appends families.
fn put_families(
    page: &mut Vec<u8>,
    families: &[Family],
    reading: &PageValues,
) -> Result<(), AllocError>
    ensures { OnOk result (page.new.items
        ≡ page.old.items ++ families_text reading.now families.now) }
{
    for family in families {
        put_family(page, family, reading)?;
    }
    Ok(())
}

/// Appends a family: its head, and its samples.
fn put_family(page: &mut Vec<u8>, family: &Family, reading: &PageValues) -> Result<(), AllocError>
    ensures { OnOk result (page.new.items ≡ page.old.items ++ family_text reading.now family.now) }
{
    put_head(page, family.0, family.1, family.2)?;
    put_samples(page, family.1, family.3, family.4, reading)
}

/// Appends the samples of a family.
fn put_samples(
    page: &mut Vec<u8>,
    name: &str,
    samples: Samples,
    rows: &[(&str, Figure)],
    reading: &PageValues,
) -> Result<(), AllocError>
    ensures { OnOk result (page.new.items
        ≡ page.old.items ++ samples_text reading.now name.now samples rows.now) }
{
    match samples {
        Samples::One(figure) => put_sample(page, name, "", reading.figure(figure)),
        Samples::Each => put_each(page, name, rows, reading),
        Samples::Slabs(figure) => put_slabs(page, name, figure, reading.slabs.as_slice()),
        Samples::Refused => put_refused(page, name, reading.refused.as_slice()),
        Samples::Process(figure) => put_known(page, name, reading.process.figure(figure)),
        Samples::Hundredths(figure) => put_hundredths(page, name, reading.process.figure(figure)),
        Samples::Numbers => put_numbers(page, name, rows, reading),
    }
}

/// Appends a sample for each of these labels.
fn put_each(
    page: &mut Vec<u8>,
    name: &str,
    rows: &[(&str, Figure)],
    reading: &PageValues,
) -> Result<(), AllocError>
    ensures { OnOk result (page.new.items
        ≡ page.old.items ++ each_text reading.now name.now rows.now) }
{
    for row in rows {
        put_sample(page, name, row.0, reading.figure(row.1))?;
    }
    Ok(())
}

/// Appends a sample that is 1 and has these numbers as labels.
fn put_numbers(
    page: &mut Vec<u8>,
    name: &str,
    rows: &[(&str, Figure)],
    reading: &PageValues,
) -> Result<(), AllocError>
    ensures { OnOk result (page.new.items
        ≡ page.old.items ++ numbers_text reading.now name.now rows.now) }
{
    page.extend_from_slice(name.as_bytes())?;
    put_labels(page, rows, reading)?;
    page.extend_from_slice(b"\"} 1\n")
}

/// Appends each text and the number behind it.
fn put_labels(
    page: &mut Vec<u8>,
    rows: &[(&str, Figure)],
    reading: &PageValues,
) -> Result<(), AllocError>
    ensures { OnOk result (page.new.items
        ≡ page.old.items ++ labels_text reading.now rows.now) }
{
    for row in rows {
        put_label(page, row.0, reading.figure(row.1))?;
    }
    Ok(())
}

/// Appends a text and a number.
fn put_label(page: &mut Vec<u8>, text: &str, number: u64) -> Result<(), AllocError>
    ensures { OnOk result (page.new.items ≡ page.old.items ++ label_text text.now number) }
{
    let mut buffer = Buffer::new();
    page.extend_from_slice(text.as_bytes())?;
    page.extend_from_slice(buffer.format(number).as_bytes())
}

/// Appends a sample for each class of chunks.
fn put_slabs(
    page: &mut Vec<u8>,
    name: &str,
    figure: SlabFigure,
    slabs: &[SlabReading],
) -> Result<(), AllocError>
    ensures { OnOk result (page.new.items
        ≡ page.old.items ++ slabs_text figure name.now slabs.now) }
{
    for slab in slabs {
        put_slab(page, name, slab.number, slab.figure(figure))?;
    }
    Ok(())
}

/// Appends a sample for each class of chunks: its refused steps.
fn put_refused(page: &mut Vec<u8>, name: &str, rows: &[RefusedReading]) -> Result<(), AllocError>
    ensures { OnOk result (page.new.items ≡ page.old.items ++ refused_text name.now rows.now) }
{
    for row in rows {
        put_slab(page, name, row.class, row.count)?;
    }
    Ok(())
}

/// Appends a sample without labels, if there is a number.
fn put_known(page: &mut Vec<u8>, name: &str, number: Option<u64>) -> Result<(), AllocError>
    ensures { OnOk result (page.new.items ≡ page.old.items ++ known_text name.now number) }
{
    match number {
        Some(number) => put_sample(page, name, "", number),
        None => Ok(()),
    }
}

/// Appends a sample of hundredths, if there is a number.
fn put_hundredths(page: &mut Vec<u8>, name: &str, number: Option<u64>) -> Result<(), AllocError>
    ensures { OnOk result (page.new.items ≡ page.old.items ++ hundredths_text name.now number) }
{
    match number {
        Some(number) => put_hundredths_line(page, name, number),
        None => Ok(()),
    }
}

/// Appends the line of a number of hundredths.
fn put_hundredths_line(page: &mut Vec<u8>, name: &str, number: u64) -> Result<(), AllocError>
    ensures { OnOk result (page.new.items ≡ page.old.items ++ hundredths_line name.now number) }
{
    put_decimals(page, name, number / 100, number / 10 % 10, number % 10)
}

/// Appends the line of a number with two decimals.
fn put_decimals(
    page: &mut Vec<u8>,
    name: &str,
    whole: u64,
    tenths: u64,
    hundredths: u64,
) -> Result<(), AllocError>
    ensures { OnOk result (page.new.items
        ≡ page.old.items ++ decimals_line name.now whole tenths hundredths) }
{
    let mut buffer = Buffer::new();
    page.extend_from_slice(name.as_bytes())?;
    page.extend_from_slice(b" ")?;
    page.extend_from_slice(buffer.format(whole).as_bytes())?;
    put_fraction(page, tenths, hundredths)
}

/// Appends two decimals, at the end of a line.
fn put_fraction(page: &mut Vec<u8>, tenths: u64, hundredths: u64) -> Result<(), AllocError>
    ensures { OnOk result (page.new.items
        ≡ page.old.items ++ fraction_text tenths hundredths) }
{
    let mut buffer = Buffer::new();
    page.extend_from_slice(b".")?;
    page.extend_from_slice(buffer.format(tenths).as_bytes())?;
    page.extend_from_slice(buffer.format(hundredths).as_bytes())?;
    page.extend_from_slice(b"\n")
}

/// Appends the head of a family.
fn put_head(page: &mut Vec<u8>, kind: Kind, name: &str, help: &str) -> Result<(), AllocError>
    ensures { OnOk result (page.new.items
        ≡ page.old.items ++ head_text kind name.now help.now) }
{
    page.extend_from_slice(b"# HELP ")?;
    page.extend_from_slice(name.as_bytes())?;
    page.extend_from_slice(b" ")?;
    page.extend_from_slice(help.as_bytes())?;
    page.extend_from_slice(b"\n# TYPE ")?;
    page.extend_from_slice(name.as_bytes())?;
    page.extend_from_slice(kind.name())
}

impl Kind {
    /// Returns its name, as at the end of a line.
    fn name(self) -> &'static [u8]
        ensures { result.now ≡ kind_name self }
    {
        match self {
            Kind::Counter => b" counter\n",
            Kind::Gauge => b" gauge\n",
        }
    }
}

/// Appends a sample: the family's name, the labels in their braces, and the number.
fn put_sample(page: &mut Vec<u8>, name: &str, labels: &str, number: u64) -> Result<(), AllocError>
    ensures { OnOk result (page.new.items
        ≡ page.old.items ++ sample_text name.now labels.now number) }
{
    let mut buffer = Buffer::new();
    page.extend_from_slice(name.as_bytes())?;
    page.extend_from_slice(labels.as_bytes())?;
    page.extend_from_slice(b" ")?;
    page.extend_from_slice(buffer.format(number).as_bytes())?;
    page.extend_from_slice(b"\n")
}

/// Appends a sample of the class of chunks with this number.
fn put_slab(page: &mut Vec<u8>, name: &str, slab: u8, number: u64) -> Result<(), AllocError>
    ensures { OnOk result (page.new.items
        ≡ page.old.items ++ slab_text name.now slab number) }
{
    let mut buffer = Buffer::new();
    page.extend_from_slice(name.as_bytes())?;
    page.extend_from_slice(b"{slab=\"")?;
    page.extend_from_slice(buffer.format(slab).as_bytes())?;
    page.extend_from_slice(b"\"} ")?;
    page.extend_from_slice(buffer.format(number).as_bytes())?;
    page.extend_from_slice(b"\n")
}
