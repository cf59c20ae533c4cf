/// How many bytes a body has before its records: prev, mark and count.
pub const BODY_HEADER_LEN: usize = 18;

/// How many bytes a record has before its writes: end and count.
pub const RECORD_HEADER_LEN: usize = 10;

/// How many bytes a put has before its data: tag, table, key, sort and length.
pub const PUT_HEADER_LEN: usize = 20;

/// How many bytes a delete has: tag, table and key.
pub const DELETE_LEN: usize = 10;
