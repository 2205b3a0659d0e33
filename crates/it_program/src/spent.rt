//! What is told where more signatures would have to be checked than may be.
ghost use Rattle.std.specs.Prelude.{◌≡◌};

use it_chain::claimed_step;
use it_chain::held_file::HeldFile;
use it_disk::Shown;
use std::alloc::{AllocError, Global};
use std::collections::BTreeMap;
use std::fmt;
use std::fmt::{Display, Formatter};

/// That more signatures would have to be checked by public keys than may be.
#[derive(Debug, Drop)]
pub struct Spent {
    /// How many may be checked.
    pub most: u64,
    /// The step whose links have the most signatures; `None` where no link has one, or memory was
    /// refused.
    flood: Option<Flood>,
}

/// The links that are claimed for a step, by their number and that of their signatures.
#[derive(Debug, Drop)]
struct Flood {
    step: Shown,
    count: Count,
}

/// How many links there are, and how many signatures they have.
#[derive(Clone, Copy, Debug)]
struct Count {
    links: usize,
    signatures: usize,
}

impl Spent {
    /// What is told where these links are verified: of the step whose links have the most
    /// signatures, how many there are. Links of sublayouts are in folders of their own, and are not
    /// counted.
    pub(crate) fn on(alloc: Global, most: u64, links: &[HeldFile]) -> Spent
        ensures { result.most ≡ most }
    {
        let flood = match flood_in(alloc, links) {
            Ok(flood) => flood,
            Err(_) => None,
        };
        Spent { most, flood }
    }
}

impl Display for Spent {
    fn fmt<W: fmt::Write>(&self, f: &mut Formatter<W>) -> fmt::Result {
        write!(
            f,
            "more than {} signatures would have to be checked by public keys \
             (--most-checks N allows more)",
            self.most
        )?;
        match &self.flood {
            Some(flood) => write!(f, "; {flood}"),
            None => Ok(()),
        }
    }
}

impl Display for Flood {
    fn fmt<W: fmt::Write>(&self, f: &mut Formatter<W>) -> fmt::Result {
        let Count { links, signatures } = self.count;
        write!(f, "step {} has the most: {signatures} in ", self.step)?;
        match links {
            1 => write!(f, "1 link"),
            _ => write!(f, "{links} links"),
        }
    }
}

/// The step whose links have the most signatures, the first of several by the bytes of its name.
fn flood_in(alloc: Global, links: &[HeldFile]) -> Result<Option<Flood>, AllocError> {
    let counts = counts_in(alloc, links)?;
    let mut most: Option<(&str, Count)> = None;
    for (step, count) in counts.iter() {
        let before = match most {
            Some((_, before)) => before.signatures,
            None => 0,
        };
        if count.signatures > before {
            most = Some((*step, *count));
        }
    }
    match most {
        Some((step, count)) => Ok(Some(Flood {
            step: Shown::of(alloc, step)?,
            count,
        })),
        None => Ok(None),
    }
}

/// The links that are claimed for each step, and their signatures.
fn counts_in(alloc: Global, links: &[HeldFile]) -> Result<BTreeMap<&str, Count>, AllocError> {
    let mut counts: BTreeMap<&str, Count> = BTreeMap::new(alloc);
    for link in links {
        let Some(step) = claimed_step(link.name()) else {
            continue;
        };
        let count = match counts.get(step) {
            Some(count) => *count,
            None => Count {
                links: 0,
                signatures: 0,
            },
        };
        counts.insert(step, count.with(link))?;
    }
    Ok(counts)
}

impl Count {
    /// One link more.
    fn with(self, link: &HeldFile) -> Count {
        let signatures = match link.envelope() {
            Some(envelope) => envelope.signatures.as_slice().len(),
            None => 0,
        };
        Count {
            links: self.links.saturating_add(1),
            signatures: self.signatures.saturating_add(signatures),
        }
    }
}
