//! The bodies of groups.
use crate::vectors::ONE_PUT;
use std::alloc::{AllocError, Global};

#[derive(Clone, Copy)]
pub(crate) enum Body {
    /// The group (0, 2]: one put of key 5.
    OnePut,
    /// The group of round k: (2k - 2, 2k], one put of key k.
    Round(u8),
    /// The group (2, 4]: the same put, but of data 62.
    Updated,
    /// The group (2, 4]: one delete, of table 0 and key 5.
    Deleted,
    /// The group of round k: a put of this key and these data, or a delete of it.
    Write(u8, u8, Option<u8>),
}

fn round(mut body: Vec<u8>, k: u8) -> Vec<u8> {
    if body.len() > 30 {
        let mark = k.saturating_mul(2);
        body[0] = mark.saturating_sub(2);
        body[8] = mark;
        body[18] = mark;
        body[30] = k;
    }
    body
}

fn updated(mut body: Vec<u8>) -> Vec<u8> {
    if body.len() > 48 {
        body[0] = 2;
        body[8] = 4;
        body[18] = 4;
        body[48] = 0x62;
    }
    body
}

fn deleted(mut body: Vec<u8>) -> Vec<u8> {
    if body.len() > 38 {
        body[0] = 2;
        body[8] = 4;
        body[18] = 4;
        body[28] = 2;
        body.truncate(38);
    }
    body
}

fn write(body: Vec<u8>, k: u8, key: u8, data: Option<u8>) -> Vec<u8> {
    let mut body = round(body, k);
    if body.len() > 48 {
        body[30] = key;
        match data {
            Some(byte) => body[48] = byte,
            None => {
                body[28] = 2;
                body.truncate(38);
            }
        }
    }
    body
}

impl Body {
    pub(crate) fn bytes(self, alloc: Global) -> Result<Vec<u8>, AllocError> {
        let body = ONE_PUT.to_vec(alloc)?;
        Ok(match self {
            Body::OnePut => body,
            Body::Round(k) => round(body, k),
            Body::Updated => updated(body),
            Body::Deleted => deleted(body),
            Body::Write(k, key, data) => write(body, k, key, data),
        })
    }
}
