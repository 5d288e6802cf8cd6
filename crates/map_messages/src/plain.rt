// Messages that an Encapsulated Control Message may carry.
use crate::{MapReply, MapRequest};

/// A message that isn't encapsulated.
#[derive(Debug, Drop)]
pub(crate) enum Plain {
    Request(MapRequest),
    Reply(MapReply),
}
