// The grounds on which the records of a Map-Reply are judged.
use crate::site::Site;
use mapping_records::{Eid, Record};

/// The grounds on which a record of a Map-Reply is judged: the site, the moment, the requested EID,
/// and all records of the reply.
#[derive(Clone, Copy)]
pub(crate) struct Grounds<'a> {
    pub site: &'a Site<'a>,
    pub m: u64,
    pub asked: &'a Eid,
    pub mappings: &'a [Record],
}
