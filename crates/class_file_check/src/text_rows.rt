//! Questions in text, and what must be answered. In an assembler's text `|` stands for the end of a line.

/// Descriptors of fields.
pub const FIELDS: &str = "\
B -> Ok(FieldType { dims: 0, base: Byte })\n\
C -> Ok(FieldType { dims: 0, base: Char })\n\
D -> Ok(FieldType { dims: 0, base: Double })\n\
F -> Ok(FieldType { dims: 0, base: Float })\n\
I -> Ok(FieldType { dims: 0, base: Int })\n\
J -> Ok(FieldType { dims: 0, base: Long })\n\
S -> Ok(FieldType { dims: 0, base: Short })\n\
Z -> Ok(FieldType { dims: 0, base: Bool })\n\
La; -> Ok(FieldType { dims: 0, base: Class(List { items: [97] }) })\n\
[[La/b; -> Ok(FieldType { dims: 2, base: Class(List { items: [97, 47, 98] }) })\n\
LL/(V)/ <; -> Ok(FieldType { dims: 0, base: Class(List { items: [76, 47, 40, 86, 41, 47, 32, 60] }) })\n\
[I -> Ok(FieldType { dims: 1, base: Int })\n\
[[J -> Ok(FieldType { dims: 2, base: Long })\n\
V -> Err(BadDescriptor(0))\n\
A -> Err(BadDescriptor(0))\n\
i -> Err(BadDescriptor(0))\n\
()V -> Err(BadDescriptor(0))\n\
II -> Err(BadDescriptor(1))\n\
La;x -> Err(BadDescriptor(3))\n\
L -> Err(BadDescriptor(1))\n\
L; -> Err(BadDescriptor(1))\n\
L/a; -> Err(BadDescriptor(1))\n\
La -> Err(BadDescriptor(2))\n\
La.b; -> Err(BadDescriptor(2))\n\
La[b; -> Err(BadDescriptor(2))\n\
La//b; -> Err(BadDescriptor(3))\n\
La/; -> Err(BadDescriptor(3))\n\
[ -> Err(BadDescriptor(1))\n\
[[ -> Err(BadDescriptor(2))\n\
[V -> Err(BadDescriptor(1))\n\
[[I[ -> Err(BadDescriptor(3))";

/// Descriptors of methods: the slots of the arguments without a receiver and with one, and the types.
pub const METHODS: &str = "\
()V -> 0 1 MethodType { params: List { items: [] }, result: None }\n\
()J -> 0 1 MethodType { params: List { items: [] }, result: Some(FieldType { dims: 0, base: Long }) }\n\
(I)V -> 1 2 MethodType { params: List { items: [FieldType { dims: 0, base: Int }] }, result: None }\n\
(IFLa;Z)V -> 4 5 MethodType { params: List { items: [FieldType { dims: 0, base: Int }, FieldType { dims: 0, base: Float }, FieldType { \
    dims: 0, base: Class(List { items: [97] }) }, FieldType { dims: 0, base: Bool }] }, result: None }\n\
(JD)V -> 4 5 MethodType { params: List { items: [FieldType { dims: 0, base: Long }, FieldType { dims: 0, base: Double }] }, result: None }\n\
([J[[D)V -> 2 3 MethodType { params: List { items: [FieldType { dims: 1, base: Long }, FieldType { dims: 2, base: Double }] }, result: None \
    }\n\
([DLa;C)[[S -> 3 4 MethodType { params: List { items: [FieldType { dims: 1, base: Double }, FieldType { dims: 0, base: Class(List { items: \
    [97] }) }, FieldType { dims: 0, base: Char }] }, result: Some(FieldType { dims: 2, base: Short }) }\n\
I -> BadDescriptor(0)\n\
( -> BadDescriptor(1)\n\
(V -> BadDescriptor(1)\n\
(V)V -> BadDescriptor(1)\n\
(I -> BadDescriptor(2)\n\
(I) -> BadDescriptor(3)\n\
() -> BadDescriptor(2)\n\
(I;)V -> BadDescriptor(2)\n\
(ILa//b;)V -> BadDescriptor(5)\n\
([)V -> BadDescriptor(2)\n\
()[V -> BadDescriptor(3)\n\
()VV -> BadDescriptor(3)\n\
(I)II -> BadDescriptor(4)\n\
())V -> BadDescriptor(2)\n\
()LV -> BadDescriptor(4)";

/// Assembler's texts, with the first line that is at fault.
pub const ASSEMBLED: &str = "\
# no class -> Line(2)\n\
class 0 A B -> good\n\
|class 0 A B| -> good\n\
field 0 f I -> Line(1)\n\
method 0 m ()V 0 0|end -> Line(1)\n\
class 0 A -> Line(1)\n\
class 12345 A B -> Line(1)\n\
class 00021 A B -> Line(1)\n\
||class g A B -> Line(3)\n\
class 0 A \"B\" -> Line(1)\n\
class 0 A B \"C\" -> Line(1)\n\
class 0 A B|class 0 A B -> Line(2)\n\
class 0 A B|end -> Line(2)\n\
class 0 A B|nop -> Line(2)\n\
class 0 A B|catch a b c any -> Line(2)\n\
class 0 A B|nothing -> Line(2)\n\
class 0 A B|field 0 f -> Line(2)\n\
class 0 A B|field 0 f I -2147483648 -> good\n\
class 0 A B|field 0 f J 2147483648 -> good\n\
class 0 A B|field 0 f I 2147483648 -> Line(2)\n\
class 0 A B|field 0 f I -0 -> Line(2)\n\
class 0 A B|field 0 f J 9223372036854775808 -> Line(2)\n\
class 0 A B|field 0 f S \"a -> Line(2)\n\
class 0 A B|field 0 f S \"a\"b -> Line(2)\n\
class 0 A B|field 0 f I\t -> Line(2)\n\
class 0 A B|field 0 f I\r| -> Line(2)\n\
class 0 A B|  # \t| -> good\n\
class 0 A B|   | -> good\n\
class 0 A B|method 9 a ()V 0 65535|end -> good\n\
class 0 A B|method 9 a ()V 0 65536|end -> Line(2)\n\
class 0 A B|method 0 m ()V 0 0 -> Line(3)\n\
class 0 A B|method 0 m ()V 0 0|| -> Line(4)\n\
class 0 A B|method 0 m ()V 0 0|end -> good\n\
class 0 A B|method 0 m ()V 0 0|end|end -> Line(4)\n\
class 0 A B|method 0 m ()V 0 0|end end -> Line(3)\n\
class 0 A B|method 0 m ()V 0 0|nop|end -> good\n\
class 0 A B|method 0 m ()V 0 0| nop |end -> good\n\
class 0 A B|method 0 m ()V 0 0|nop # a|end -> Line(3)\n\
class 0 A B|method 0 m ()V 0 0|\tnop|end -> Line(3)\n\
class 0 A B|method 0 m ()V 0 0|\"nop\"|end -> Line(3)\n\
class 0 A B|method 0 m ()V 0 0|fly|end -> Line(3)\n\
class 0 A B|method 0 m ()V 0 0|field 0 f I|end -> Line(3)\n\
class 0 A B|method 0 m ()V 0 0|method 0 n ()V 0 0|end -> Line(3)\n\
class 0 A B|method 0 m ()V 0 0|class 0 A B -> Line(3)\n\
class 0 A B|method 0 m ()V 0 0|goto a|end -> Line(3)\n\
class 0 A B|method 0 m ()V 0 0|goto a|end|method 0 n ()V 0 0|a: nop|end -> Line(3)\n\
class 0 A B|method 0 m ()V 0 0|goto a|a: nop|end -> good\n\
class 0 A B|method 0 m ()V 0 0|a:|a: nop|end -> Line(4)\n\
class 0 A B|method 0 m ()V 0 0|a:|end -> Line(4)\n\
class 0 A B|method 0 m ()V 0 0|end: nop|end -> good\n\
class 0 A B|method 0 m ()V 0 0|end: end -> Line(3)\n\
class 0 A B|method 0 m ()V 0 0|:|end -> Line(3)\n\
class 0 A B|method 0 m ()V 0 0|nop|catch a a a any|end -> Line(4)\n\
class 0 A B|method 0 m ()V 0 0|catch a b a any|a: nop|b:|end -> good\n\
class 0 A B|method 0 m ()V 0 0|catch a b a: any|end -> Line(3)\n\
class 0 A B|method 0 m ()V 0 0|catch a b c|end -> Line(3)\n\
class 0 A B|method 0 m ()V 0 0|iload 65535|end -> good\n\
class 0 A B|method 0 m ()V 0 0|iload 65536|end -> Line(3)\n\
class 0 A B|method 0 m ()V 0 0|sipush 32768|end -> Line(3)\n\
class 0 A B|method 0 m ()V 0 0|newarray 6|end -> Line(3)\n\
class 0 A B|method 0 m ()V 0 0|multianewarray A 256|end -> Line(3)\n\
class 0 A B|method 0 m ()V 0 0|ldc_w text \"\"|end -> good\n\
class 0 A B|method 0 m ()V 0 0|ldc_w text \"a\"b|end -> Line(3)\n\
class 0 A B|method 0 m ()V 0 0|ldc_w text a|end -> Line(3)\n\
class 0 A B|method 0 m ()V 0 0|a: switch a|end -> good\n\
class 0 A B|method 0 m ()V 0 0|a: switch a 1=a 2=a|end -> good\n\
class 0 A B|method 0 m ()V 0 0|a: switch a 2=a 1=a|end -> Line(3)\n\
class 0 A B|method 0 m ()V 0 0|a: switch a 1=a 1=a|end -> Line(3)\n\
class 0 A B|method 0 m ()V 0 0|a: switch a 1=b|end -> Line(3)\n\
class 0 A B|method 0 m ()V 0 0|a: switch a 1=a=c|end -> Line(3)";

/// Lines of an assembler's text, with what they say. The numbers in lists are bytes of ASCII.
pub const LINES: &str = "\
# a -> [Empty]\n\
class 0421 E O R -> [Short(Class(ClassLine { flags: 1057, name: List { items: [69] }, parent: List { items: [79] }, interfaces: List { \
    items: [List { items: [82] }] } }))]\n\
field 0019 L I 10 -> [Short(Field(FieldLine { flags: 25, name: List { items: [76] }, descriptor: List { items: [73] }, constant: \
    Some(Int(10)) }))]\n\
field 001a T S \"at most\" -> [Short(Field(FieldLine { flags: 26, name: List { items: [84] }, descriptor: List { items: [83] }, constant: \
    Some(Text(List { items: [97, 116, 32, 109, 111, 115, 116] })) }))]\n\
method 0009 s (I)I 2 1 X -> [Short(Method(MethodLine { flags: 9, name: List { items: [115] }, descriptor: List { items: [40, 73, 41, 73] }, \
    stack: 2, locals: 1, throws: List { items: [List { items: [88] }] } }))]\n\
iload 0 -> [Short(Code(CodeLine { label: None, statement: Some(OnLocal(21, 0)) }))]\n\
ifeq  s  -> [Short(Code(CodeLine { label: None, statement: Some(Jump(153, List { items: [115] })) }))]\n\
switch d -1=s 100=t -> [Short(Code(CodeLine { label: None, statement: Some(Switch(List { items: [100] }, List { items: [SwitchLine { key: \
    -1, label: List { items: [115] } }, SwitchLine { key: 100, label: List { items: [116] } }] })) }))]\n\
d: getstatic E L I -> [Short(Code(CodeLine { label: Some(List { items: [100] }), statement: Some(OnMember(178, Field, List { items: [69] }, \
    List { items: [76] }, List { items: [73] })) }))]\n\
s:  ldc_w int 1 -> [Short(Code(CodeLine { label: Some(List { items: [115] }), statement: Some(Load(Int(1))) }))]\n\
failed: -> [Short(Code(CodeLine { label: Some(List { items: [102, 97, 105, 108, 101, 100] }), statement: None }))]\n\
end: -> [Short(Code(CodeLine { label: Some(List { items: [101, 110, 100] }), statement: None }))]\n\
catch d e f X -> [Short(Catch(CatchLine { from: List { items: [100] }, to: List { items: [101] }, handler: List { items: [102] }, class: \
    Some(List { items: [88] }) }))]\n\
catch d e f any -> [Short(Catch(CatchLine { from: List { items: [100] }, to: List { items: [101] }, handler: List { items: [102] }, class: \
    None }))]\n\
end -> [Short(End)]\n\
fly -> [Bad]";

/// Instructions of an assembler's text, with the bytes that the Java Virtual Machine Specification, chapter 6, gives for them. The
/// constants are numbered as they come: `A`, `B`, `m`, `()V`, `Code`, `Exceptions` and `X` take ten places in front of them. Two dots
/// stand for whatever follows.
pub const INSTRUCTIONS: &str = "\
nop|aconst_null|lconst_0|lconst_1 -> 0001090a\n\
iload 1|lload 1|aload 1|iaload|laload|aaload|baload|caload|saload -> 1501160119012e2f32333435\n\
istore 1|lstore 1|astore 1|iastore|lastore|aastore|bastore|castore|sastore -> 360137013a014f5053545556\n\
pop|pop2|dup|dup_x1|dup_x2|dup2|dup2_x1|dup2_x2|swap -> 5758595a5b5c5d5e5f\n\
iadd|ladd|isub|lsub|imul|lmul|idiv|ldiv|irem|lrem|ineg|lneg -> 6061646568696c6d70717475\n\
ishl|lshl|ishr|lshr|iushr|lushr|iand|land|ior|lor|ixor|lxor -> 78797a7b7c7d7e7f80818283\n\
i2l|l2i|i2b|i2c|i2s|lcmp -> 858891929394\n\
ireturn|lreturn|areturn|return|arraylength|athrow -> acadb0b1bebf\n\
a: nop|ifeq a|ifne a|iflt a|ifge a|ifgt a|ifle a|if_icmpeq a|if_icmpne a -> 0099ffff9afffc9bfff99cfff69dfff39efff09fffeda0ffea\n\
a: nop|if_icmplt a|if_icmpge a|if_icmpgt a|if_icmple a|if_acmpeq a|if_acmpne a|goto a|ifnull a|ifnonnull a -> \
    00a1ffffa2fffca3fff9a4fff6a5fff3a6fff0a7ffedc6ffeac7ffe7\n\
iload 255|iload 256|sipush -2 -> 15ffc415010011fffe\n\
iinc 255 -128|iinc 255 128|iinc 256 -1 -> 84ff80c48400ff0080c4840100ffff\n\
newarray 10 -> bc0a\n\
a: nop|switch a -2=b 7=a|b: return -> 00ab0000ffffffff00000002fffffffe0000001b00000007ffffffffb1\n\
a: nop|nop|nop|switch a -> 000000abfffffffd00000000\n\
getstatic A b C -> b2..\n\
putstatic A b C -> b3..\n\
getfield A b C -> b4..\n\
putfield A b C -> b5..\n\
invokevirtual A b C -> b6..\n\
invokespecial A b C -> b7..\n\
invokestatic A b C -> b8..\n\
invokeinterface A b C -> b9..\n\
new A -> bb..\n\
anewarray A -> bd..\n\
checkcast A -> c0..\n\
instanceof A -> c1..\n\
ldc_w int -7 -> 13..\n\
ldc2_w long 7 -> 14..\n\
multianewarray [[I 2 -> c5..\n\
ldc_w int -7|ldc2_w long 7|new C|ldc_w int -7 -> 13000b14000cbb000f13000b\n\
multianewarray [[I 2|invokeinterface A f ()V -> c5000c02b9000f0100";
