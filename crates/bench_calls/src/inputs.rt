//! The inputs, each made to a size in time linear in it.

use std::alloc::{AllocError, Global};

/// So many letters.
pub fn text(alloc: Global, size: usize) -> Result<Vec<u8>, AllocError> {
    vec![in alloc; b'a'; size]
}

/// A descriptor of a class with a name of so many letters.
pub fn class_descriptor(alloc: Global, size: usize) -> Result<Vec<u16>, AllocError> {
    let mut units = Vec::new(alloc);
    units.push(u16::from(b'L'))?;
    for _ in 0..size {
        units.push(u16::from(b'a'))?;
    }
    units.push(u16::from(b';'))?;
    Ok(units)
}

/// A descriptor of a method with so many parameters.
pub fn method_descriptor(alloc: Global, size: usize) -> Result<Vec<u16>, AllocError> {
    let mut units = Vec::new(alloc);
    units.push(u16::from(b'('))?;
    for _ in 0..size {
        units.push(u16::from(b'I'))?;
    }
    units.push(u16::from(b')'))?;
    units.push(u16::from(b'V'))?;
    Ok(units)
}

/// A code of so many instructions of one byte: iload_0.
pub fn loads(alloc: Global, size: usize) -> Result<Vec<u8>, AllocError> {
    vec![in alloc; 0x1a; size]
}

/// A code of one lookupswitch with so many pairs.
pub fn lookup_switch(alloc: Global, size: u16) -> Result<Vec<u8>, AllocError> {
    let mut code = Vec::new(alloc);
    let [high, low] = size.to_be_bytes();
    code.extend_from_slice(&[0xab, 0, 0, 0, 0, 0, 0, 0, 0, 0, high, low])?;
    for key in 0..size {
        let [high, low] = key.to_be_bytes();
        code.extend_from_slice(&[0, 0, high, low, 0, 0, 0, 0])?;
    }
    Ok(code)
}

/// A constant pool of a text, and so many String constants of it.
pub fn pool(alloc: Global, size: u16) -> Result<Vec<u8>, AllocError> {
    let mut bytes = Vec::new(alloc);
    let [high, low] = size.saturating_add(2).to_be_bytes();
    bytes.extend_from_slice(&[high, low, 1, 0, 1, b'a'])?;
    for _ in 0..size {
        bytes.extend_from_slice(&[8, 0, 1])?;
    }
    Ok(bytes)
}
