use crate::{Command, WordsRefused, command_of, sessions_path};
use aes_core::encrypt;
use dev_core::Kind;
use sched_core::Mode;
use std::alloc::{AllocError, Global};
use std::test::Fail;

// The example of FIPS 197, appendix B.
const PLAIN: [u8; 16] = [
    0x32, 0x43, 0xf6, 0xa8, 0x88, 0x5a, 0x30, 0x8d, 0x31, 0x31, 0x98, 0xa2, 0xe0, 0x37, 0x07, 0x34,
];

const CIPHER: [u8; 16] = [
    0x39, 0x25, 0x84, 0x1d, 0x02, 0xdc, 0x09, 0xfb, 0xdc, 0x11, 0x85, 0x97, 0x19, 0x6a, 0x0b, 0x32,
];

fn words_of(alloc: Global, line: &str) -> Result<Vec<String>, AllocError> {
    let mut words = Vec::new(alloc);
    for word in line.split_ascii_whitespace() {
        words.push(String::from_str(alloc, word)?)?;
    }
    Ok(words)
}

// The file and the burst that words ask for.
fn crypt_of(
    alloc: Global,
    words: &[String],
    devices: usize,
) -> Result<Option<(&str, usize)>, WordsRefused> {
    match command_of(alloc, words, devices) {
        Ok(Command::Crypt(crypt)) => Ok(Some((crypt.sessions, crypt.burst))),
        Ok(Command::Quick(_) | Command::Forward(_) | Command::Gen(_)) => Ok(None),
        Err(refused) => Err(refused),
    }
}

#[test]
fn the_words_of_crypt_are_read(rt: HostRuntime) -> Result<(), Fail> {
    let alloc = rt.alloc();
    for (line, sessions, burst) in [
        (
            "crypt --vdev mode=round-robin,worker=plain --sessions f",
            "f",
            32,
        ),
        (
            "crypt --vdev mode=round-robin,worker=plain --sessions f --burst 1",
            "f",
            1,
        ),
        (
            "crypt --burst=256 --sessions=a/b --vdev=mode=round-robin,worker=plain",
            "a/b",
            256,
        ),
        (
            "crypt --burst 0000000032 --vdev mode=round-robin,worker=plain --sessions=",
            "",
            32,
        ),
        (
            "crypt --vdev mode=round-robin,worker=plain --sessions f --",
            "f",
            32,
        ),
    ] {
        let words = words_of(alloc, line)?;
        assert_eq!(rt;
            crypt_of(alloc, &words, 1),
            Ok(Some((sessions, burst))),
            "{line}"
        );
    }
    Ok(())
}

#[test]
fn the_scheduler_text_is_read(rt: HostRuntime) -> Result<(), Fail> {
    let alloc = rt.alloc();
    let words = words_of(
        alloc,
        "crypt --sessions f --vdev mode=packet-size-distr,worker=lane,ordering=enable,worker=plain,mode_param=threshold:64",
    )?;
    let Ok(Command::Crypt(crypt)) = command_of(alloc, &words, 2) else {
        return Err(Fail::from("refused"));
    };
    let text = crypt.scheduler;
    assert_eq!(rt; (text.mode, text.workers), (Mode::PacketSize, 2));
    assert_eq!(rt; (text.ordering, text.threshold), (true, 64));
    assert_eq!(rt; (text.kinds[0], text.kinds[1]), (Kind::Lane, Kind::Plain));
    Ok(())
}

#[test]
fn other_words_of_crypt_are_refused(rt: HostRuntime) -> Result<(), Fail> {
    let alloc = rt.alloc();
    for (line, devices, refused) in [
        ("crypt", 8, WordsRefused::Usage),
        ("crypt --sessions f", 8, WordsRefused::Usage),
        (
            "crypt --vdev mode=round-robin,worker=plain",
            8,
            WordsRefused::Usage,
        ),
        (
            "crypt --vdev mode=multi-core,worker=plain --sessions f",
            8,
            WordsRefused::Usage,
        ),
        (
            "crypt --vdev mode=multi-core,worker --sessions f",
            8,
            WordsRefused::Vdev { at: 16 },
        ),
        (
            "crypt --vdev mode=fail-over,worker=plain --sessions f",
            8,
            WordsRefused::Vdev { at: 27 },
        ),
        (
            "crypt --vdev mode=round-robin,worker=plain,threshold=5 --sessions f",
            0,
            WordsRefused::Vdev { at: 30 },
        ),
        (
            "crypt --vdev mode=fail-over,worker=plain,worker=plain --sessions f",
            1,
            WordsRefused::Usage,
        ),
        (
            "crypt --vdev= --sessions f",
            8,
            WordsRefused::Vdev { at: 0 },
        ),
        (
            "crypt --vdev= --sessions f",
            0,
            WordsRefused::Vdev { at: 0 },
        ),
        ("crypt --vdev --sessions f", 8, WordsRefused::Usage),
        (
            "crypt --vdev= --sessions f --burst 257",
            8,
            WordsRefused::Usage,
        ),
        ("crypt --vdev= --sessions f stray", 8, WordsRefused::Usage),
        (
            "crypt --vdev mode=round-robin,worker=plain --sessions f",
            0,
            WordsRefused::Usage,
        ),
    ] {
        let words = words_of(alloc, line)?;
        assert_eq!(rt; crypt_of(alloc, &words, devices), Err(refused), "{line}");
    }
    Ok(())
}

// Behind legal words.
#[test]
fn further_words_are_refused(rt: HostRuntime) -> Result<(), Fail> {
    let alloc = rt.alloc();
    for rest in [
        "--burst 0",
        "--burst 257",
        "--burst +1",
        "--burst 00000000032",
        "--burst=",
        "--burst -1",
        "--burst 1x",
        "--burst",
        "--burst 1 --burst 1",
        "--sessions f",
        "--help",
        "-h",
        "help",
        "stray",
        "-- stray",
    ] {
        let mut words = words_of(
            alloc,
            "crypt --vdev mode=round-robin,worker=plain --sessions f",
        )?;
        words.append(&mut words_of(alloc, rest)?)?;
        assert_eq!(rt;
            crypt_of(alloc, &words, 8),
            Err(WordsRefused::Usage),
            "{rest}"
        );
    }
    Ok(())
}

// Each case is words and the number of devices, and the file that they ask for, or why they are refused.
#[test]
fn the_words_of_forward_are_read(rt: HostRuntime) -> Result<(), Fail> {
    let alloc = rt.alloc();
    for (line, devices, said) in [
        (
            "forward --vdev mode=round-robin,worker=plain --sessions f",
            1,
            Ok("f"),
        ),
        (
            "forward --sessions a/b --vdev mode=round-robin,worker=plain",
            1,
            Ok("a/b"),
        ),
        (
            "forward --sessions= --vdev=mode=fail-over,worker=plain,worker=plain",
            2,
            Ok(""),
        ),
        ("forward", 8, Err(WordsRefused::Usage)),
        ("forward --sessions f", 8, Err(WordsRefused::Usage)),
        (
            "forward --vdev mode=round-robin,worker=plain",
            8,
            Err(WordsRefused::Usage),
        ),
        (
            "forward --vdev mode=round-robin,worker=plain --sessions f --sessions f",
            8,
            Err(WordsRefused::Usage),
        ),
        (
            "forward --vdev= --vdev= --sessions f",
            8,
            Err(WordsRefused::Usage),
        ),
        (
            "forward --vdev mode=round-robin,worker=plain --sessions f --burst 32",
            8,
            Err(WordsRefused::Usage),
        ),
        (
            "forward --burst=32 --vdev= --sessions f",
            8,
            Err(WordsRefused::Usage),
        ),
        (
            "forward --vdev mode=round-robin,worker=plain --sessions f stray",
            8,
            Err(WordsRefused::Usage),
        ),
        ("forward --help", 8, Err(WordsRefused::Usage)),
        (
            "Forward --vdev mode=round-robin,worker=plain --sessions f",
            8,
            Err(WordsRefused::Usage),
        ),
        (
            "forward --vdev mode=multi-core,worker --sessions f",
            8,
            Err(WordsRefused::Vdev { at: 16 }),
        ),
        (
            "forward --vdev= --sessions f",
            0,
            Err(WordsRefused::Vdev { at: 0 }),
        ),
        (
            "forward --vdev mode=multi-core,worker=plain --sessions f",
            8,
            Err(WordsRefused::Usage),
        ),
        (
            "forward --vdev mode=fail-over,worker=plain,worker=plain --sessions f",
            1,
            Err(WordsRefused::Usage),
        ),
    ] {
        let words = words_of(alloc, line)?;
        let found = match command_of(alloc, &words, devices) {
            Ok(Command::Forward(forward)) => Ok(forward.sessions),
            Ok(_) => return Err("another command".into()),
            Err(refused) => Err(refused),
        };
        assert_eq!(rt; found, said, "{line}, {devices} devices");
    }
    Ok(())
}

#[test]
fn a_key_has_digits_of_either_case(rt: HostRuntime) -> Result<(), Fail> {
    let alloc = rt.alloc();
    for line in [
        "quick 2b7e151628aed2a6abf7158809cf4f3c 0a0b0c0d",
        "quick 2B7E151628AED2A6ABF7158809CF4F3C 0A0B0C0D",
        "quick 2B7e151628AEd2a6abF7158809cf4f3C 0a0B0c0D",
    ] {
        let words = words_of(alloc, line)?;
        let Ok(Command::Quick(quick)) = command_of(alloc, &words, 0) else {
            return Err("refused".into());
        };
        let mut block = PLAIN;
        encrypt(&quick.key, &mut block);
        assert_eq!(rt; block, CIPHER, "{line}");
        assert_eq!(rt; quick.salt, [10, 11, 12, 13], "{line}");
    }
    Ok(())
}

#[test]
fn keys_have_three_lengths(rt: HostRuntime) -> Result<(), Fail> {
    let alloc = rt.alloc();
    for (line, legal) in [
        ("quick 00000000000000000000000000000000 00000000", true),
        (
            "quick 000000000000000000000000000000000000000000000000 00000000",
            true,
        ),
        (
            "quick 0000000000000000000000000000000000000000000000000000000000000000 00000000",
            true,
        ),
        ("", false),
        ("quick", false),
        ("quick 00 00000000", false),
        ("quick 0000000000000000000000000000000g 00000000", false),
        ("quick 00000000000000000000000000000000 000000", false),
        ("quick 00000000000000000000000000000000 00000000 0", false),
        ("Quick 00000000000000000000000000000000 00000000", false),
        ("--help", false),
    ] {
        let words = words_of(alloc, line)?;
        let wanted = if legal {
            Ok(None)
        } else {
            Err(WordsRefused::Usage)
        };
        assert_eq!(rt; crypt_of(alloc, &words, 1), wanted, "{line}");
    }
    Ok(())
}

// Each case is words, the number of devices, and the packets and the number that they ask for, if they are legal.
#[test]
fn the_words_of_gen_are_read(rt: HostRuntime) -> Result<(), Fail> {
    let alloc = rt.alloc();
    for (line, devices, said) in [
        ("gen 1 0", 2, Some((1, 0))),
        ("gen 10000 7", 8, Some((10_000, 7))),
        ("gen 1000000 7", 2, Some((1_000_000, 7))),
        ("gen 0000001 00000000000000000007", 2, Some((1, 7))),
        (
            "gen 2 18446744073709551615",
            2,
            Some((2, 18_446_744_073_709_551_615)),
        ),
        ("gen 0 7", 2, None),
        ("gen 1000001 7", 2, None),
        ("gen 00000001 7", 2, None),
        ("gen 1 18446744073709551616", 2, None),
        ("gen 1 99999999999999999999", 2, None),
        ("gen 1 000000000000000000007", 2, None),
        ("gen 1 7", 1, None),
        ("gen 1 7", 0, None),
        ("gen", 2, None),
        ("gen 1", 2, None),
        ("gen 1 7 7", 2, None),
        ("gen +1 7", 2, None),
        ("gen 1 -7", 2, None),
        ("gen 1x 7", 2, None),
        ("gen 1 0x7", 2, None),
        ("Gen 1 7", 2, None),
    ] {
        let words = words_of(alloc, line)?;
        let found = match command_of(alloc, &words, devices) {
            Ok(Command::Gen(generated)) => Ok((generated.packets, generated.number)),
            Ok(_) => return Err("another command".into()),
            Err(refused) => Err(refused),
        };
        assert_eq!(rt;
            found,
            said.ok_or(WordsRefused::Usage),
            "{line}, {devices} devices"
        );
        assert_eq!(rt; sessions_path(alloc, &words)?, None, "{line}");
    }
    Ok(())
}

#[test]
fn the_file_is_found_before_the_words_are_used(rt: HostRuntime) -> Result<(), Fail> {
    let alloc = rt.alloc();
    for (line, path) in [
        (
            "crypt --vdev mode=round-robin,worker=plain --sessions f --burst 1",
            Some("f"),
        ),
        (
            "crypt --vdev mode=round-robin,worker=plain --sessions=",
            Some(""),
        ),
        (
            "forward --vdev mode=round-robin,worker=plain --sessions f",
            Some("f"),
        ),
        (
            "forward --sessions= --vdev mode=round-robin,worker=plain",
            Some(""),
        ),
        (
            "forward --vdev mode=multi-core,worker=plain --sessions f",
            None,
        ),
        (
            "forward --vdev mode=round-robin,worker=plain --sessions f --burst 1",
            None,
        ),
        ("crypt --vdev worker=plain --sessions f", None),
        ("crypt --sessions f", None),
        ("quick 00000000000000000000000000000000 00000000", None),
        ("", None),
    ] {
        let words = words_of(alloc, line)?;
        let found = sessions_path(alloc, &words)?;
        assert_eq!(rt; found.as_ref().map(|f| f.as_str()), path, "{line}");
    }
    Ok(())
}
