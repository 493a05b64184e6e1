//! The executive.
ghost use Rattle.std.specs.Prelude.{◌≡◌};
ghost use Rattle.vax_guest.specs.Executive.{executive_source};

/// The source of the executive, which calls a user program and serves its CHMK instructions by their codes: 0 ends the
/// run; 1 writes the byte in R0; 2 gives the next byte of the input in R0, or -1; 3 writes as many bytes from R1 on as
/// the low word of R0 says and gives 1, or 0 where the first or the last of them isn't readable. Every other code ends
/// the run.
pub fn executive() -> &'static [u8]
    ensures { result.now ≡ executive_source }
{
    EXECUTIVE
}

/// The source of the executive.
const EXECUTIVE: &[u8] = br"        .TITLE  EXEC
        .PSECT  $SCB
        .LONG   2[16]
        .LONG   KCHM
        .PSECT  EXEC,NOWRT
KBEGIN: PUSHL   #^X03C00000
        PUSHAL  KUSER
        REI
KUSER:  CALLS   #0,(R0)
        CHMK    #0
        .ALIGN  LONG
KCHM:   CASEL   (SP)+,#0,#3
10$:    .WORD   KEXIT-10$,KPUT-10$,KGET-10$,KWRITE-10$
KEXIT:  HALT
KPUT:   MTPR    R0,#35
        REI
KGET:   MFPR    #32,R0
        BBC     #7,R0,10$
        MFPR    #33,R0
        REI
10$:    MNEGL   #1,R0
        REI
KWRITE: PUSHR   #^M<R2,R3>
        MOVL    R1,R3
        MOVZWL  R0,R2
        BEQL    20$
        PROBER  #0,R2,(R1)
        BEQL    30$
10$:    MOVZBL  (R3)+,R0
        MTPR    R0,#35
        SOBGTR  R2,10$
20$:    MOVL    #1,R0
        BRB     40$
30$:    CLRL    R0
40$:    POPR    #^M<R2,R3>
        REI
        .END    KBEGIN
";
