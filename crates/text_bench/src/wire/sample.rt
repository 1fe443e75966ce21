//! A request and a reply of 32 MiB.

use farm_types::limits::SOURCE_MAX;
use farm_types::{Bytes, Outcome, Request, Words};
use std::alloc::{AllocError, Global};

/// What is written and read.
#[derive(Drop)]
pub struct Sample {
    pub request: Request,
    pub request_text: Bytes,
    pub outcome: Outcome,
    pub reply_text: Bytes,
}

fn large(alloc: Global) -> Result<Bytes, AllocError> {
    Ok(Bytes::from_vec(vec![in alloc; b'x'; SOURCE_MAX]?))
}

fn command(alloc: Global) -> Result<Words, AllocError> {
    let mut words = Words::new(alloc);
    for word in ["scc", "-c", "a.i", "-o", "a.o"] {
        words.try_push(Bytes::from_slice(alloc, word.as_bytes())?)?;
    }
    Ok(words)
}

fn request(alloc: Global) -> Result<Request, AllocError> {
    let words = command(alloc)?;
    let source = large(alloc)?;
    Ok(Request { words, source })
}

fn outcome(alloc: Global) -> Result<Outcome, AllocError> {
    let object = large(alloc)?;
    Ok(Outcome {
        status: 0,
        err: Bytes::new(alloc),
        out: Bytes::new(alloc),
        object,
    })
}

fn request_text(alloc: Global, request: &Request) -> anyhow::Result<Bytes> {
    if !request.fits() {
        anyhow::bail!("the request doesn't fit");
    }
    Ok(compile_request::encode(alloc, request)?)
}

fn reply_text(alloc: Global, outcome: &Outcome) -> anyhow::Result<Bytes> {
    if !outcome.fits() {
        anyhow::bail!("the reply doesn't fit");
    }
    Ok(compile_reply::encode(alloc, outcome)?)
}

impl Sample {
    pub fn new(alloc: Global) -> anyhow::Result<Sample> {
        let request = request(alloc)?;
        let request_text = request_text(alloc, &request)?;
        let outcome = outcome(alloc)?;
        let reply_text = reply_text(alloc, &outcome)?;
        Ok(Sample {
            request,
            request_text,
            outcome,
            reply_text,
        })
    }
}
