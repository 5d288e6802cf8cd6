// The public face of a request that was found.
use crate::Request;
use keyed_list::{Key, Keyed, Marks};

impl Keyed for Request {
    ghost use Rattle.request_queue.specs.Found.{request_marks};

    ghost marks_of = { request_marks };

    fn marks(&self) -> Marks {
        Marks {
            moment: self.start,
            key: Key::nonce(self.nonce),
            other: Some(Key::eid(&self.eid)),
        }
    }
}
