//! The classes of the demo, as an assembler's texts.

/// What a ring's domain offers: it takes a ring of nodes, and hands it on `k` times.
pub const HOP: &[u8] = b"class 0601 Hop java/lang/Object jk/Remote
method 0401 hop (LNode;I)LNode; 0 0 jk/RemoteException
end";

/// A node of a ring, with a value.
pub const NODE: &[u8] = b"class 0021 Node java/lang/Object java/io/Serializable
field 0001 next LNode;
field 0001 v I
method 0001 <init> ()V 1 1
        aload 0
        invokespecial java/lang/Object <init> ()V
        return
end";

/// Its `main` binds a capability under its first word, and keeps the second, which is the name of the next domain's.
pub const MAIN: &[u8] = b"class 0021 Main java/lang/Object
field 0008 next Ljava/lang/String;
method 0009 main ([Ljava/lang/String;)V 4 1
        aload 0
        sipush 0
        aaload
        new Impl
        dup
        invokespecial Impl <init> ()V
        invokestatic jk/Capability create (Ljk/Remote;)Ljk/Capability;
        invokestatic jk/Repository bind (Ljava/lang/String;Ljk/Capability;)V
        aload 0
        sipush 1
        aaload
        putstatic Main next Ljava/lang/String;
        return
end";

/// Its `hop` adds 1 to the value of each node of a ring, and hands the ring on to the next domain, unless it is the last.
pub const IMPL: &[u8] = b"class 0021 Impl java/lang/Object Hop
method 0001 <init> ()V 1 1
        aload 0
        invokespecial java/lang/Object <init> ()V
        return
end
method 0001 hop (LNode;I)LNode; 4 4 jk/RemoteException
        aload 1
        astore 3
each:   aload 3
        aload 3
        getfield Node v I
        sipush 1
        iadd
        putfield Node v I
        aload 3
        getfield Node next LNode;
        astore 3
        aload 3
        aload 1
        if_acmpne each
        iload 2
        ifne on
        aload 1
        areturn
on:     getstatic Main next Ljava/lang/String;
        invokestatic jk/Repository lookup (Ljava/lang/String;)Ljk/Capability;
        checkcast Hop
        aload 1
        iload 2
        sipush 1
        isub
        invokeinterface Hop hop (LNode;I)LNode;
        areturn
end";

/// Its `main` makes a ring of as many nodes as its first word says, with values from 0, and hands it to the next domain, which hands it on as
/// often as the second word says. Then it prints the sum of the values of the ring that came back: -1 where that is no ring of so many
/// nodes, or the ring that was sent.
pub const GO: &[u8] = b"class 0021 Go java/lang/Object
method 0009 main ([Ljava/lang/String;)V 4 8 jk/RemoteException
        aload 0
        sipush 0
        aaload
        invokestatic java/lang/Integer parseInt (Ljava/lang/String;)I
        istore 1
        new Node
        dup
        invokespecial Node <init> ()V
        astore 2
        aload 2
        astore 3
        sipush 1
        istore 4
make:   iload 4
        iload 1
        if_icmpge close
        aload 3
        new Node
        dup
        invokespecial Node <init> ()V
        putfield Node next LNode;
        aload 3
        getfield Node next LNode;
        astore 3
        aload 3
        iload 4
        putfield Node v I
        iinc 4 1
        goto make
close:  aload 3
        aload 2
        putfield Node next LNode;
        getstatic Main next Ljava/lang/String;
        invokestatic jk/Repository lookup (Ljava/lang/String;)Ljk/Capability;
        checkcast Hop
        aload 2
        aload 0
        sipush 1
        aaload
        invokestatic java/lang/Integer parseInt (Ljava/lang/String;)I
        invokeinterface Hop hop (LNode;I)LNode;
        astore 5
        aload 5
        astore 6
        sipush 0
        istore 7
        sipush 0
        istore 4
add:    iload 4
        iload 1
        if_icmpge back
        iload 7
        aload 6
        getfield Node v I
        iadd
        istore 7
        aload 6
        getfield Node next LNode;
        astore 6
        iinc 4 1
        goto add
back:   aload 6
        aload 5
        if_acmpne wrong
        aload 5
        aload 2
        if_acmpne say
wrong:  sipush -1
        istore 7
say:    getstatic java/lang/System out Ljava/io/PrintStream;
        iload 7
        invokevirtual java/io/PrintStream println (I)V
        return
end";
