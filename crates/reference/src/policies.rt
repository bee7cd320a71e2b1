// The policies: Every, Hull, and caps of them.
use super::front::Front;
use super::hull::hull_ranks;
use super::stop::Cause;
use std::alloc::{AllocError, Global};

// Hull where there is a share, else Every; under a cap where there is one.
#[derive(Clone, Copy, Debug, PartialEq, Eq)]
pub struct Policy {
    share: Option<u16>,
    most: Option<u8>,
}

impl Policy {
    pub fn every() -> Policy {
        Policy {
            share: None,
            most: None,
        }
    }

    pub fn hull(share: u16) -> Result<Policy, Cause> {
        if share > 10_000 {
            return Err(Cause::Share);
        }
        Ok(Policy {
            share: Some(share),
            most: None,
        })
    }

    // A cap of this policy; the lower of two caps counts.
    pub fn capped(self, most: u8) -> Result<Policy, Cause> {
        if most == 0 || most > 114 {
            return Err(Cause::Cap);
        }
        let most = self.most.map_or(most, |inner| inner.min(most));
        Ok(Policy {
            most: Some(most),
            ..self
        })
    }

    // The ranks that it chooses, rising.
    pub fn choose(self, heap: Global, front: &Front) -> Result<Vec<usize>, AllocError> {
        let mut ranks = match self.share {
            Some(share) => hull_ranks(heap, front, share)?,
            None => front.firsts.iter().map(|ticket| ticket.rank).collect(heap)?,
        };
        if let Some(most) = self.most {
            ranks.truncate(usize::from(most));
        }
        Ok(ranks)
    }
}
