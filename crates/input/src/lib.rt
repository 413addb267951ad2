// The start of a file or of standard input, so that no program reads more than it needs into memory.
#![tactic(auto)]

ghost use Rattle.std.specs.Prelude.{◌≡◌, take, IfOk, IfSome};

use std::alloc::Global;
use std::io;
use std::io::Read;

// At most so many bytes of a source. Where it is known what the source gives, they are its first ones.
pub fn start_of<R: Read + Drop>(alloc: Global, source: R, limit: usize) -> io::Result<Vec<u8>>
    ensures { IfOk result (λ bytes. IfSome (R.remaining source) (λ given. bytes.items ≡ take limit given)) }
{
    let mut bytes = Vec::new(alloc);
    source.take(limit as u64).read_to_end(&mut bytes)?;
    Ok(bytes)
}

#[cfg(test)]
mod tests {
    use super::start_of;
    use std::test::Fail;

    #[test]
    fn no_more_than_the_limit(rt: HostRuntime) -> Result<(), Fail> {
        let source: &[u8] = b"some bytes";
        assert_eq!(rt;
            start_of(rt.alloc(), source, 4)?.as_slice(),
            b"some".as_slice()
        );
        assert_eq!(rt; start_of(rt.alloc(), source, 10)?.as_slice(), source);
        assert_eq!(rt; start_of(rt.alloc(), source, 99)?.as_slice(), source);
        assert_eq!(rt; start_of(rt.alloc(), source, 0)?.len(), 0);
        Ok(())
    }
}
