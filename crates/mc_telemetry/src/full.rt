//! The report that the store is full.

use mc_sizes::{Account, Need};
use std::fmt::{self, Display, Formatter};

/// The chunks that an item needs, and what their class has.
#[derive(Clone, Copy)]
pub struct ClassState {
    pub need: Need,
    pub account: Account,
}

/// The report that the store is full.
#[derive(Clone, Copy)]
pub struct Full {
    /// What the refused item needs; nothing if its size isn't known.
    pub stock: Option<ClassState>,
    /// The number of pages of the store.
    pub pages: u32,
    /// The number of pages that one item may take.
    pub most: u32,
}

impl Full {
    /// Returns how many chunks were wanted at most.
    fn wanted_chunks(&self) -> u32 {
        match &self.stock {
            Some(stock) => stock.need.count(),
            None => self.most,
        }
    }
}

impl Display for Full {
    fn fmt<W: fmt::Write>(&self, f: &mut Formatter<W>) -> fmt::Result {
        match &self.stock {
            Some(stock) => write!(f, "{stock}")?,
            None => write!(f, "no chunk is left for an item that grows")?,
        }
        match (self.wanted_chunks(), self.pages) {
            (1, 1) => write!(f, ", and the one page of -m is given out"),
            (1, pages) => write!(f, ", and all {pages} pages of -m are given out"),
            (_, 1) => write!(f, ", and -m has one page"),
            (_, pages) => write!(f, ", and too few of the {pages} pages of -m are left"),
        }
    }
}

impl ClassState {
    /// Writes which chunks were wanted.
    fn write_need<W: fmt::Write>(&self, f: &mut Formatter<W>) -> fmt::Result {
        let class = self.need.class();
        match self.need.count() {
            1 => write!(f, "no chunk of {} bytes is left: ", class.size()),
            count => write!(f, "no {count} chunks of {} bytes are left: ", class.size()),
        }
    }

    /// Writes how many pages the class has.
    fn write_pages<W: fmt::Write>(&self, f: &mut Formatter<W>) -> fmt::Result {
        write!(f, "class {} has ", self.need.class().number())?;
        match self.account.pages {
            0 => write!(f, "no page"),
            1 => write!(f, "1 page"),
            pages => write!(f, "{pages} pages"),
        }
    }

    /// Writes how many chunks these pages have, and how many of them are in use.
    fn write_chunks<W: fmt::Write>(&self, f: &mut Formatter<W>) -> fmt::Result {
        let Account { pages, out } = self.account;
        let chunks_a_page = u64::from(self.need.class().chunks_a_page());
        let chunks = u64::from(pages).saturating_mul(chunks_a_page);
        match chunks {
            1 => write!(f, ", 1 chunk")?,
            _ => write!(f, ", {chunks} chunks")?,
        }
        if u64::from(out) == chunks {
            write!(f, ", all in use")
        } else {
            write!(f, ", {out} of them in use by now")
        }
    }
}

impl Display for ClassState {
    fn fmt<W: fmt::Write>(&self, f: &mut Formatter<W>) -> fmt::Result {
        self.write_need(f)?;
        self.write_pages(f)?;
        if self.account.pages == 0 {
            return Ok(());
        }
        self.write_chunks(f)
    }
}
