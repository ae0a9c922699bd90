// What is asked of a log.
use foundation::{Duplicate, NoMemory};
use sigstore_types_parts::{Bytes, Text};
use std::alloc::Global;

/// The method of a request (RFC 9110, section 9.3).
#[derive(Clone, Copy, Debug, PartialEq, Eq, Drop)]
pub enum Method {
    Get,
    Post,
}

/// A request to a log: the path behind the log's address, and the body, which is empty where nothing is sent.
#[derive(Debug, PartialEq, Drop)]
pub struct Request {
    pub method: Method,
    pub path: Text,
    pub body: Bytes,
}

impl Duplicate for Request {
    fn duplicate(&self, alloc: Global) -> Result<Request, NoMemory> {
        Ok(Request {
            method: self.method,
            path: self.path.duplicate(alloc)?,
            body: self.body.duplicate(alloc)?,
        })
    }
}
