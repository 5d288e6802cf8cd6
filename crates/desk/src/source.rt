// A file that is read from a place on.
ghost use Rattle.std.specs.Prelude.{◌≡◌, ◌≤◌, ◌<◌, ◌+◌, length, drop};
ghost use Rattle.desk.specs.World.{Gives};

use octets::Octets;

#[derive(Drop)]
pub struct Source {
    pub file: Octets,
    pub place: usize,
    ghost in_file: { place ≤ length file },
}

impl Source {
    // Reads the next octets, as many as the buffer takes and the file has left.
    pub fn read(&mut self, buf: &mut [u8]) -> usize
        ensures bound { result ≤ length buf.new }
        ensures octets { 0 < length buf.old →
            Gives (drop self.old.place self.old.file) result buf.new }
        ensures file { self.new.file ≡ self.old.file }
        ensures place { self.new.place ≡ self.old.place + result }
    {
        let rest = &self.file.as_slice()[self.place..];
        let n = rest.len().min(buf.len());
        buf[..n].copy_from_slice(&rest[..n]);
        self.place += n;
        n
    }
}
