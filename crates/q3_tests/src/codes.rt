//! Codes of words, and what is written and read by words that are long.

use q3_bits::{Code, CodeError, Reader, Writer};
use std::alloc::{AllocError, Global};
use std::process::Abort;
use std::test::*;

/// Puts the bits of a byte after a text, least first.
fn push_bits(text: &mut String, byte: u8) -> Result<(), AllocError> {
    for k in 0..8u32 {
        text.push(if (byte >> k) % 2 == 1 { '1' } else { '0' })?;
    }
    Ok(())
}

/// These texts, followed by plain ones up to 256.
fn plain_after(alloc: Global, first: &[&str]) -> Result<Vec<String>, AllocError> {
    let mut texts = Vec::new(alloc);
    for text in first {
        texts.push(String::from_str(alloc, text)?)?;
    }
    for byte in first.len()..256 {
        let mut text = String::new(alloc);
        push_bits(&mut text, byte as u8)?;
        texts.push(text)?;
    }
    Ok(texts)
}

/// Texts of 1 to 24 bits: a 1 for each number up to 16 or the byte, and then a 0, or its own bits from 16 on.
fn long_texts(alloc: Global) -> Result<Vec<String>, AllocError> {
    let mut texts = Vec::new(alloc);
    for byte in 0..256u32 {
        let mut text = String::new(alloc);
        for _ in 0..byte.min(16) {
            text.push('1')?;
        }
        if byte < 16 {
            text.push('0')?;
        } else {
            push_bits(&mut text, byte as u8)?;
        }
        texts.push(text)?;
    }
    Ok(texts)
}

fn code_of(alloc: Global, texts: &[String]) -> Result<Code, CodeError> {
    let mut words = Vec::new(alloc);
    for text in texts {
        words.push(text.as_str())?;
    }
    Code::from_words(alloc, &words)
}

/// A code that begins with these words has this fault.
fn has_fault(rt: &impl Abort, alloc: Global, first: &[&str], fault: Option<CodeError>) {
    let texts = plain_after(alloc, first).expect(rt, "memory");
    assert_eq!(rt; code_of(alloc, &texts).err(), fault);
}

#[test]
fn first_fault_of_a_code(rt: HostRuntime) {
    let alloc = rt.alloc();
    has_fault(&rt, alloc, &[], None);
    has_fault(&rt, alloc, &["0", "0"], Some(CodeError::Clash(0, 1)));
    let seventh = ["0", "0", "0", "0", "0", "0", "0", ""];
    has_fault(&rt, alloc, &seventh, Some(CodeError::Empty(7)));
}

fn long_code(rt: &impl Abort, alloc: Global) -> Code {
    let texts = long_texts(alloc).expect(rt, "memory");
    code_of(alloc, &texts).expect(rt, "a code")
}

#[test]
fn words_of_1_to_24_bits(rt: HostRuntime) {
    let code = long_code(&rt, rt.alloc());
    let copy = code.copy().expect(&rt, "memory");
    let mut writer = Writer::new(&code, 64);
    assert_eq!(rt; writer.put(0x1fe03, 17), Ok(()));
    assert_eq!(rt; writer.put(0xff0f_1000, 32), Ok(()));
    let mut reader = Reader::new(&copy, writer.bytes());
    assert_eq!(rt; reader.get(17), Ok(0x1fe03));
    assert_eq!(rt; reader.get(32), Ok(0xff0f_1000));
}
